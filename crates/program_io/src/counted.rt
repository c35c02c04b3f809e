//! A reader or a writer that counts its reads, remembers a failure, and knows whether output remains to be flushed.
ghost use Rattle.std.specs.Prelude.{◌≡◌, ◌+◌, min, true, false, IsOk, IfSome};
ghost use Rattle.std.specs.Io.{ReadsAtMost};
ghost use Rattle.std.specs.Io.KnownBytes.{ReadConsumes, Appends, Keeps};
ghost use Rattle.program_io.specs.Counted.{Remembers, Writes, Writing};

use crate::fault::WriteFault;
use std::fmt::Display;
use std::io;
use std::io::{Read, Write};
use std::marker::Model;

/// A reader or a writer that counts its reads and records whether a call failed, so that a session can report it.
#[derive(Drop)]
pub struct Counted<T> {
    inner: T,
    calls: u64,
    failed: bool,
    pending: bool,
}

impl<T> Model for Counted<T> {
    ghost use Rattle.program_io.specs.Counted.{CountedRecord};

    ghost Value = { CountedRecord T };

    ghost view = { λ t. record { inner = t.inner; calls = t.calls; failed = t.failed; pending = t.pending } };
}

impl<T> Counted<T> {
    /// Returns a reader or writer without calls or failures.
    pub fn new(inner: T) -> Counted<T>
        ensures { result ≡ record { inner = inner; calls = 0; failed = false; pending = false } }
    {
        Counted {
            inner,
            calls: 0,
            failed: false,
            pending: false,
        }
    }

    /// Returns the inner reader or writer.
    pub fn into_inner(self) -> T
        ensures { result ≡ self.inner }
    {
        let Counted {
            inner,
            calls: _,
            failed: _,
            pending: _,
        } = self;
        inner
    }

    /// Returns the number of read calls, at most 2^64 - 1.
    pub fn calls(&self) -> u64
        ensures { result ≡ self.now.calls }
    {
        self.calls
    }

    /// Returns whether a call has failed. An interrupted read isn't a failure.
    pub fn failed(&self) -> bool
        ensures { result ≡ self.now.failed }
    {
        self.failed
    }

    /// Returns whether anything was written since the last successful flush.
    pub fn pending(&self) -> bool
        ensures { result ≡ self.now.pending }
    {
        self.pending
    }
}

impl<R: Read> Counted<R> {
    /// Reads once into `buffer` and returns the number of bytes read.
    ///
    /// # Errors
    ///
    /// The error of the reader. It is recorded as a failure unless the call was interrupted and may be repeated.
    pub fn read(&mut self, buffer: &mut [u8]) -> io::Result<usize>
        ensures bound { ReadsAtMost result buffer.new }
        ensures bytes { ReadConsumes (R.remaining self.old.inner) (R.remaining self.new.inner) result buffer.new }
        ensures calls { self.new.calls ≡ min (self.old.calls + 1) u64.MAX }
        ensures failed { Remembers result self.old.failed self.new.failed }
    {
        self.calls = self.calls.saturating_add(1);
        match self.inner.read(buffer) {
            Ok(n) => Ok(n),
            Err(error) => {
                if error.kind() != io::ErrorKind::Interrupted {
                    self.failed = true;
                }
                Err(error)
            }
        }
    }
}

impl<W: Write> Counted<W> {
    /// Writes all bytes.
    ///
    /// # Errors
    ///
    /// `WriteFault` if the writer fails, which is recorded.
    pub fn put(&mut self, bytes: &[u8]) -> Result<(), WriteFault>
        ensures writes { Writes W.contents self.old self.new bytes.now result }
        ensures pending { self.new.pending ≡ true }
    {
        self.pending = true;
        let outcome = self.inner.write_all(bytes);
        self.ended(outcome)
    }

    /// Writes the printed form of a value.
    ///
    /// # Errors
    ///
    /// `WriteFault` if the writer fails, which is recorded.
    pub fn print<D: Display + Drop>(&mut self, text: D) -> Result<(), WriteFault>
        ensures writes { Writing self.old self.new result
            (IfSome (D.output text) (Appends (W.contents self.old.inner) (W.contents self.new.inner))) }
        ensures pending { self.new.pending ≡ true }
    {
        self.pending = true;
        let outcome = self.inner.write_fmt(text);
        self.ended(outcome)
    }

    /// Flushes the writer.
    ///
    /// # Errors
    ///
    /// `WriteFault` if the writer fails, which is recorded.
    pub fn flush(&mut self) -> Result<(), WriteFault>
        ensures { Writing self.old self.new result (Keeps (W.contents self.old.inner) (W.contents self.new.inner) × (self.new.pending ≡ false)) }
    {
        let outcome = self.inner.flush();
        self.ended(outcome)?;
        self.pending = false;
        Ok(())
    }

    // Records the failure of a write.
    fn ended(&mut self, outcome: io::Result<()>) -> Result<(), WriteFault>
        ensures inner { self.new.inner ≡ self.old.inner }
        ensures pending { self.new.pending ≡ self.old.pending }
        ensures end { Writing self.old self.new result (IsOk outcome) }
    {
        match outcome {
            Ok(()) => Ok(()),
            Err(_) => {
                self.failed = true;
                Err(WriteFault)
            }
        }
    }
}
