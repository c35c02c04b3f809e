//! A writer that discards what is written.
use std::io;
use std::io::Write;

/// Replaces a writer that failed.
#[derive(Drop)]
pub struct Nowhere;

impl Write for Nowhere {
    fn write(&mut self, buffer: &[u8]) -> io::Result<usize> {
        Ok(buffer.len())
    }

    fn flush(&mut self) -> io::Result<()> {
        Ok(())
    }
}
