//! Standard output, which remembers whether its reader went away.
use std::io;
use std::io::{ErrorKind, Write};

/// A writer that remembers whether its reader went away.
#[derive(Drop)]
pub struct Output<W> {
    inner: W,
    is_closed: bool,
}

impl<W> Output<W> {
    /// Returns a writer whose reader is there.
    pub fn new(inner: W) -> Output<W> {
        Output {
            inner,
            is_closed: false,
        }
    }

    /// Returns whether a write failed because the reader of a pipe or a socket went away.
    pub fn is_closed(&self) -> bool {
        self.is_closed
    }

    fn remember(&mut self, kind: ErrorKind) {
        if is_end(kind) {
            self.is_closed = true;
        }
    }
}

// Whether a write failed since nobody reads any more.
fn is_end(kind: ErrorKind) -> bool {
    matches!(
        kind,
        ErrorKind::BrokenPipe | ErrorKind::ConnectionReset | ErrorKind::ConnectionAborted
    )
}

impl<W: Write> Write for Output<W> {
    fn write(&mut self, bytes: &[u8]) -> io::Result<usize> {
        match self.inner.write(bytes) {
            Ok(written) => Ok(written),
            Err(error) => {
                self.remember(error.kind());
                Err(error)
            }
        }
    }

    fn flush(&mut self) -> io::Result<()> {
        match self.inner.flush() {
            Ok(()) => Ok(()),
            Err(error) => {
                self.remember(error.kind());
                Err(error)
            }
        }
    }
}
