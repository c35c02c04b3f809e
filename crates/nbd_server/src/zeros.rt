//! Zeros, and the rest of the first and last sector that they touch.
ghost use Rattle.std.specs.Prelude.{◌≡◌, ◌+◌, length, IfOk, OnErr};
ghost use Rattle.allocation.specs.Refusal.{IsOutOfMemory};
ghost use Rattle.nbd_server.specs.Premises.{HaveEnds};
ghost use Rattle.nbd_server.specs.Zeros.{zeros_of};

use allocation::{OutOfMemory, append, resize, with_capacity};
use std::alloc::Global;

/// A number of zeros, and the bytes before and after them in their first and last sector.
#[derive(Clone, Copy, Debug)]
pub(crate) struct Zeros<'a> {
    pub(crate) before: &'a [u8],
    pub(crate) count: usize,
    pub(crate) behind: &'a [u8],
}

impl Zeros<'_> {
    /// Returns the size of the sectors in bytes.
    pub(crate) fn len(&self) -> usize
        requires { HaveEnds self.now }
        ensures value { result ≡ length (zeros_of self.now) }
        ensures sum { result ≡ length self.now.before.now + (self.now.count + length self.now.behind.now) }
    {
        self.before.len() + self.count + self.behind.len()
    }

    /// Returns the bytes of the sectors.
    ///
    /// # Errors
    ///
    /// `OutOfMemory` if the allocator refused memory for them.
    pub(crate) fn bytes(&self, alloc: Global) -> Result<Vec<u8>, OutOfMemory>
        requires { HaveEnds self.now }
        ensures ok { IfOk result (λ bytes. bytes.items ≡ zeros_of self.now) }
        ensures err { OnErr result (IsOutOfMemory (length (zeros_of self.now))) }
    {
        let mut bytes = with_capacity(alloc, self.len())?;
        append(&mut bytes, self.before)?;
        resize(&mut bytes, self.before.len() + self.count, 0)?;
        append(&mut bytes, self.behind)?;
        Ok(bytes)
    }
}
