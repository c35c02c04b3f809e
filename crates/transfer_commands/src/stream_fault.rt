//! Why a stream ends early.
ghost use Rattle.std.specs.Prelude.{◌≡◌};
ghost use Rattle.stack_files.specs.Endings.{opening_ending};
ghost use Rattle.transfer_commands.specs.declared.stream_fault.CatFault.TheVariants as cat_fault;
ghost use Rattle.transfer_commands.specs.declared.stream_fault.StreamFault.TheVariants as stream_fault;

use program_io::WriteFault;
use stack_engine::IoFault;
use stack_files::{OpeningFault, StackFault};
use thiserror::Error;

/// Why not all sectors were written to the writer.
#[derive(Clone, Copy, Debug, PartialEq, Eq, Error)]
pub enum CatFault {
    /// The sectors aren't within the device. Nothing was done.
    #[error("Range")]
    Range,
    /// The next sector is lost by this fault, or memory ran out.
    #[error("Read")]
    Read(IoFault),
    /// The writer failed.
    #[error("Write")]
    Write,
}

impl From<WriteFault> for CatFault {
    ghost from_gives = { λ _ given. given ≡ cat_fault.Write };

    fn from(_fault: WriteFault) -> Self {
        CatFault::Write
    }
}

/// Why not all bytes of a reader were stored.
#[derive(Clone, Copy, Debug, PartialEq, Eq)]
pub enum StoreCause {
    /// The device is read-only. Nothing was done.
    ReadOnly,
    /// The bytes don't fit after the first sector, or the sector isn't within the device. Nothing was done.
    Range,
    /// The expected bytes aren't whole sectors. Nothing was done.
    Length,
    /// The reader has more bytes than the device has room for.
    TooLong,
    /// The input ended inside a sector.
    PartSector,
    /// The reader failed.
    Read,
    /// A write to the device ended in this fault.
    Write(IoFault),
    /// What was written couldn't be synced.
    Sync(IoFault),
}

/// How many sectors were written, and why the rest weren't.
#[derive(Clone, Copy, Debug, PartialEq, Eq)]
pub struct StoreFault {
    pub written: u64,
    pub cause: StoreCause,
}

/// Why a command that reads or stores the bytes of a device ended early.
#[derive(Clone, Copy, Debug, PartialEq, Eq)]
pub enum StreamFault<'a> {
    /// There is no such device, or the file to be stored can't be opened.
    Stack(StackFault<'a>),
    /// Not all sectors were written to the writer.
    Cat(CatFault),
    /// Not all bytes were stored.
    Store(StoreFault),
    /// All bytes were stored, and a line can't be written.
    Write,
}

impl<'a> From<OpeningFault<'a>> for StreamFault<'a> {
    ghost from_gives = { λ fault given. given ≡ stream_fault.Stack (opening_ending fault) };

    fn from(fault: OpeningFault<'a>) -> Self {
        StreamFault::Stack(StackFault::from(fault))
    }
}

impl<'a> From<StackFault<'a>> for StreamFault<'a> {
    ghost from_gives = { λ fault given. given ≡ stream_fault.Stack fault };

    fn from(fault: StackFault<'a>) -> Self {
        StreamFault::Stack(fault)
    }
}

impl From<WriteFault> for StreamFault<'_> {
    ghost from_gives = { λ _ given. given ≡ stream_fault.Write };

    fn from(_fault: WriteFault) -> Self {
        StreamFault::Write
    }
}
