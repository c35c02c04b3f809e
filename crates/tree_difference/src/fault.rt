//! Why a comparison of two trees ends early.
ghost use Rattle.std.specs.Prelude.{◌≡◌};
ghost use Rattle.tree_difference.specs.declared.fault.DifferenceFault.TheVariants as difference_fault;

use allocation::OutOfMemory;
use image_pin::Mismatch;
use program_io::WriteFault;
use verity_format::VerifyFault;

/// One of two trees.
#[derive(Clone, Copy, Debug, PartialEq, Eq)]
pub enum Which {
    First,
    Second,
}

/// The first difference of two trees that makes their digests incomparable.
#[derive(Clone, Copy, Debug, PartialEq, Eq)]
pub enum Unlike {
    DataBlockSize,
    HashBlockSize,
    Salt,
}

/// Why two trees aren't compared, or not to the end.
#[derive(Clone, Copy, Debug, PartialEq, Eq)]
pub enum DifferenceFault {
    /// A hash image has no superblock, is too small for its tree, or failed.
    Image(Which, VerifyFault),
    /// No hash block begins at the sector of a superblock.
    Unaligned(Which),
    /// A superblock differs from its pin.
    Unpinned(Which, Mismatch),
    /// The trees are incomparable.
    Unlike(Unlike),
    /// The hash block of a level, by its index, fails verification: its digest isn't stored in its parent.
    Hash(Which, u32, u64),
    /// An allocation was refused.
    NoMemory,
    /// A line can't be reported.
    Write,
}

impl From<OutOfMemory> for DifferenceFault {
    ghost from_gives = { λ _ fault. fault ≡ difference_fault.NoMemory };

    fn from(_error: OutOfMemory) -> DifferenceFault {
        DifferenceFault::NoMemory
    }
}

impl From<WriteFault> for DifferenceFault {
    ghost from_gives = { λ _ fault. fault ≡ difference_fault.Write };

    fn from(_fault: WriteFault) -> DifferenceFault {
        DifferenceFault::Write
    }
}
