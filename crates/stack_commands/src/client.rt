//! What a client of the NBD protocol is served by.

use nbd_server::Journal;
use program_io::Counted;
use std::io::{Read, Write};

/// Where the messages of a client are read, where the replies are written, where lines on the service are printed, unless `quiet` is
/// set, and who takes these lines; lent by who runs the command.
#[derive(Drop)]
pub struct Client<'d, R: Read, W: Write, E: Write, J: Journal> {
    pub reader: &'d mut Counted<R>,
    pub writer: &'d mut Counted<W>,
    pub errors: &'d mut Counted<E>,
    pub quiet: bool,
    pub journal: &'d J,
}
