//! Why partitions aren't printed.
ghost use Rattle.std.specs.Prelude.{◌≡◌};
ghost use Rattle.partition_commands.specs.declared.fault.PrintFault.TheVariants as print_fault;
ghost use Rattle.partition_commands.specs.declared.fault.PartitionsFault.TheVariants as partitions_fault;
ghost use Rattle.partition_commands.specs.declared.refusal.PartitionRefusal.TheVariants as refusals;

use crate::PartitionRefusal;
use allocation::OutOfMemory;
use fec_commands::FecFault;
use image_commands::ImageFault;
use image_files::UnopenedFile;
use partition_table::NoTable;
use program_io::WriteFault;
use std::alloc::AllocError;

/// Why partitions aren't printed.
#[derive(Clone, Copy, Debug, PartialEq, Eq)]
pub enum PrintFault {
    /// Room for a label was refused.
    NoMemory,
    /// The image has no good table.
    Table(NoTable),
    /// A line can't be written.
    Write,
}

impl From<OutOfMemory> for PrintFault {
    ghost from_gives = { λ _ fault. fault ≡ print_fault.NoMemory };

    fn from(_error: OutOfMemory) -> Self {
        PrintFault::NoMemory
    }
}

impl From<NoTable> for PrintFault {
    ghost from_gives = { λ fault given. given ≡ print_fault.Table fault };

    fn from(fault: NoTable) -> Self {
        PrintFault::Table(fault)
    }
}

impl From<WriteFault> for PrintFault {
    ghost from_gives = { λ _ given. given ≡ print_fault.Write };

    fn from(_fault: WriteFault) -> Self {
        PrintFault::Write
    }
}

/// Why a command on the partitions of an image ends early.
#[derive(Clone, Copy, Debug, PartialEq, Eq)]
pub enum PartitionsFault<'a> {
    /// Memory ran out.
    NoMemory,
    /// The image isn't opened.
    Open(UnopenedFile<'a>),
    /// The pin isn't read.
    Pin(ImageFault<'a>),
    /// Its partitions can't serve.
    Refused(PartitionRefusal),
    /// The parity doesn't cover the image.
    Fec(FecFault<'a>),
    /// `load` would refuse the stack over the image.
    NotLoadable,
    /// A line can't be written.
    Write,
}

impl From<AllocError> for PartitionsFault<'_> {
    ghost from_gives = { λ _ fault. fault ≡ partitions_fault.NoMemory };

    fn from(_error: AllocError) -> Self {
        PartitionsFault::NoMemory
    }
}

impl From<OutOfMemory> for PartitionsFault<'_> {
    ghost from_gives = { λ _ fault. fault ≡ partitions_fault.NoMemory };

    fn from(_error: OutOfMemory) -> Self {
        PartitionsFault::NoMemory
    }
}

impl<'a> From<UnopenedFile<'a>> for PartitionsFault<'a> {
    ghost from_gives = { λ file given. given ≡ partitions_fault.Open file };

    fn from(file: UnopenedFile<'a>) -> Self {
        PartitionsFault::Open(file)
    }
}

impl<'a> From<ImageFault<'a>> for PartitionsFault<'a> {
    ghost from_gives = { λ fault given. given ≡ partitions_fault.Pin fault };

    fn from(fault: ImageFault<'a>) -> Self {
        PartitionsFault::Pin(fault)
    }
}

impl From<NoTable> for PartitionsFault<'_> {
    ghost from_gives = { λ fault given. given ≡ partitions_fault.Refused (refusals.Table fault) };

    fn from(fault: NoTable) -> Self {
        PartitionsFault::Refused(PartitionRefusal::Table(fault))
    }
}

impl From<PartitionRefusal> for PartitionsFault<'_> {
    ghost from_gives = { λ refusal given. given ≡ partitions_fault.Refused refusal };

    fn from(refusal: PartitionRefusal) -> Self {
        PartitionsFault::Refused(refusal)
    }
}

impl<'a> From<FecFault<'a>> for PartitionsFault<'a> {
    ghost from_gives = { λ fault given. given ≡ partitions_fault.Fec fault };

    fn from(fault: FecFault<'a>) -> Self {
        PartitionsFault::Fec(fault)
    }
}

impl From<WriteFault> for PartitionsFault<'_> {
    ghost from_gives = { λ _ given. given ≡ partitions_fault.Write };

    fn from(_fault: WriteFault) -> Self {
        PartitionsFault::Write
    }
}
