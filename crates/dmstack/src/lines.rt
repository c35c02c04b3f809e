//! Standard error, to which a service writes whole lines.
use std::alloc::Global;
use std::io;
use std::io::{BufWriter, Write};

/// A writer that gets each line by one write, as far as the line fits into the buffer; or, if lines aren't kept together, what is
/// written at once.
#[derive(Drop)]
pub struct Lines<W: Write + Drop> {
    inner: BufWriter<W>,
    are_whole: bool,
}

impl<W: Write + Drop> Lines<W> {
    /// Returns a writer that keeps lines together, or doesn't.
    ///
    /// # Errors
    ///
    /// `OutOfMemory` if the buffer was refused.
    pub fn new(alloc: Global, inner: W, are_whole: bool) -> io::Result<Lines<W>> {
        let inner = BufWriter::new(alloc, inner)?;
        Ok(Lines { inner, are_whole })
    }
}

impl<W: Write + Drop> Write for Lines<W> {
    fn write(&mut self, bytes: &[u8]) -> io::Result<usize> {
        let written = self.inner.write(bytes)?;
        if !self.are_whole || bytes.ends_with(b"\n") {
            self.inner.flush()?;
        }
        Ok(written)
    }

    fn flush(&mut self) -> io::Result<()> {
        self.inner.flush()
    }
}
