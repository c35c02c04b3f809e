//! How an access to a stack fails.
use thiserror::Error;

/// Why a sector has no bytes, over leaves that don't fail.
#[derive(Clone, Copy, Debug, PartialEq, Eq, Error)]
pub enum Fault {
    /// The path of the sector leads to an `error` line.
    #[error("ErrorTarget")]
    ErrorTarget,
    /// A block on the path of the sector doesn't have the digest stored in its parent, or the root hash.
    #[error("Mismatch")]
    Mismatch,
}

/// The fault of a read or a write.
#[derive(Clone, Copy, Debug, PartialEq, Eq, Error)]
pub enum IoFault {
    /// A sector has no bytes.
    #[error("{0}")]
    Stack(Fault),
    /// The leaf with this number, from 1 on, failed.
    #[error("Device {0}")]
    Device(u32),
    /// An allocation failed.
    #[error("NoMemory")]
    NoMemory,
}

impl IoFault {
    ghost use Rattle.std.specs.Prelude.{◌≡◌};
    ghost use Rattle.stack_meaning.specs.IoFaults.{io_number, io_name};

    /// Returns the number that is printed, or 0 for `NoMemory`, which is printed without a number.
    pub fn number(self) -> u8
        ensures { result ≡ io_number self }
    {
        match self {
            IoFault::Stack(Fault::ErrorTarget) => 1,
            IoFault::Stack(Fault::Mismatch) => 2,
            IoFault::Device(_) => 3,
            IoFault::NoMemory => 0,
        }
    }

    /// Returns the name that is printed.
    pub fn name(self) -> &'static str
        ensures { result.now ≡ io_name self }
    {
        match self {
            IoFault::Stack(Fault::ErrorTarget) => "ErrorTarget",
            IoFault::Stack(Fault::Mismatch) => "Mismatch",
            IoFault::Device(_) => "Device",
            IoFault::NoMemory => "NoMemory",
        }
    }
}
