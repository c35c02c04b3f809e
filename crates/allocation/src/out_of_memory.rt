//! The error of a failed allocation.
ghost use Rattle.std.specs.Prelude.{◌≡◌, ◌≤◌};
ghost use Rattle.allocation.specs.Refusal.{IsRefused, IsRefused-prop};

use std::alloc::AllocError;

/// An allocation failed. The value is evidence of that: only the functions of this crate create one.
#[derive(Clone, Copy, Debug, PartialEq, Eq)]
pub struct OutOfMemory {
    asked: usize,
    pub ghost refused: { IsRefused asked } by { IsRefused-prop asked },
}

impl OutOfMemory {
    ghost use Rattle.allocation.specs.Asked.{asked};

    /// Returns the number of elements that the allocation asked for.
    pub fn asked(&self) -> usize
        ensures { result ≡ asked self.now }
    {
        self.asked
    }
}

impl From<OutOfMemory> for AllocError {
    ghost from_gives = { λ _ _. Unit {0} };

    // A function that returns the library's error states the evidence in a clause.
    fn from(_error: OutOfMemory) -> AllocError {
        AllocError
    }
}

// Called only if the library reported the failure of an allocation of that many elements.
pub(crate) fn refused(asked: usize) -> OutOfMemory
    ensures { result.asked ≡ asked }
{
    OutOfMemory { asked }
}
