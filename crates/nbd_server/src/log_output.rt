//! Where the lines on a service are printed.

use crate::journal::Journal;
use program_io::Counted;
use std::io::Write;

/// Where the lines on a service are printed, and who takes them; lent by who runs the service.
#[derive(Drop)]
pub struct LogOutput<'d, E: Write, J: Journal> {
    pub errors: &'d mut Counted<E>,
    pub journal: &'d J,
}
