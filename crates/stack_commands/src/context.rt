//! What commands that print work with.

use image_files::Images;
use program_io::Counted;
use std::io::Write;

/// What a command opens images by, and prints to, lent by who runs it.
#[derive(Drop)]
pub struct Context<'d, I: Images, W: Write> {
    pub images: &'d mut I,
    pub writer: &'d mut Counted<W>,
}
