//! What a command prints among the errors while it runs.

use device_adapters::Progress;
use program_io::Counted;
use std::io::Write;

/// The errors' writer, and who shows how far a transfer has come, lent by who runs the command.
#[derive(Drop)]
pub struct ErrorOutput<'d, E: Write, P: Progress> {
    pub errors: &'d mut Counted<E>,
    pub progress: &'d mut P,
}
