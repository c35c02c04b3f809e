//! Why the partitions of an image can't serve.
ghost use Rattle.std.specs.Prelude.{◌≡◌, codes};
ghost use Rattle.program_io.specs.Counted.{Writes};
ghost use Rattle.partition_commands.specs.RefusalNames.{cause_text, damaged_line, refusal_name, refusal_number, refusal_text, refused_line};

use crate::line::say_number;
use image_pin::Mismatch;
use partition_table::{NoTable, ReadFault};
use program_io::{Counted, WriteFault};
use std::io::Write;
use verity_format::VerifyFault;

/// Why the partitions of an image can't serve.
#[derive(Clone, Copy, Debug, PartialEq, Eq)]
pub enum PartitionRefusal {
    /// The image has no good table.
    Table(NoTable),
    /// No partition has the UUID of the root's data.
    NoDataPartition,
    /// Several have it.
    TwoDataPartitions,
    /// No partition has the UUID of the root's verity partition.
    NoVerityPartition,
    /// Several have it.
    TwoVerityPartitions,
    /// A partition isn't inside the image.
    OutsideDevice,
    /// There is no good superblock in the verity partition.
    Superblock(VerifyFault),
    /// The superblock differs from the pin.
    Unpinned(Mismatch),
}

impl PartitionRefusal {
    /// Returns the number in printed output: that of the superblock's fault, or of the value that differs.
    pub fn number(self) -> u8
        ensures { result ≡ refusal_number self }
    {
        match self {
            PartitionRefusal::Table(_) => 12,
            PartitionRefusal::NoDataPartition => 13,
            PartitionRefusal::TwoDataPartitions => 14,
            PartitionRefusal::NoVerityPartition => 15,
            PartitionRefusal::TwoVerityPartitions => 16,
            PartitionRefusal::OutsideDevice => 17,
            PartitionRefusal::Superblock(fault) => fault.number(),
            PartitionRefusal::Unpinned(mismatch) => mismatch.number(),
        }
    }

    /// Returns the name in printed output: that of the superblock's fault, or of the value that differs.
    pub fn name(self) -> &'static str
        ensures { result.now ≡ refusal_name self }
    {
        match self {
            PartitionRefusal::Table(_) => "NoTable",
            PartitionRefusal::NoDataPartition => "NoDataPartition",
            PartitionRefusal::TwoDataPartitions => "TwoDataPartitions",
            PartitionRefusal::NoVerityPartition => "NoVerityPartition",
            PartitionRefusal::TwoVerityPartitions => "TwoVerityPartitions",
            PartitionRefusal::OutsideDevice => "OutsideDevice",
            PartitionRefusal::Superblock(fault) => fault.name(),
            PartitionRefusal::Unpinned(mismatch) => mismatch.name(),
        }
    }
}

impl From<NoTable> for PartitionRefusal {
    ghost use Rattle.partition_commands.specs.declared.refusal.PartitionRefusal.TheVariants.{Table};

    ghost from_gives = { λ fault given. given ≡ Table fault };

    fn from(fault: NoTable) -> Self {
        PartitionRefusal::Table(fault)
    }
}

/// Prints the line of a refusal, `refused K NAME`; if there is no table, with the causes.
///
/// # Errors
///
/// `WriteFault` if the writer failed.
pub fn say_refusal<W: Write>(
    writer: &mut Counted<W>,
    refusal: PartitionRefusal,
) -> Result<(), WriteFault>
    ensures { Writes W.contents writer.old writer.new (refusal_text refusal) result }
{
    match refusal {
        PartitionRefusal::Table(NoTable::TooSmall) => writer.put(b"refused 12 NoTable TooSmall\n"),
        PartitionRefusal::Table(NoTable::Damaged(primary, backup)) => {
            say_damaged(writer, primary, backup)
        }
        PartitionRefusal::NoDataPartition
        | PartitionRefusal::TwoDataPartitions
        | PartitionRefusal::NoVerityPartition
        | PartitionRefusal::TwoVerityPartitions
        | PartitionRefusal::OutsideDevice
        | PartitionRefusal::Superblock(_)
        | PartitionRefusal::Unpinned(_) => say_refused(writer, refusal.number(), refusal.name()),
    }
}

#[tactic(auto, unfolding(crate::specs::RefusalNames::refused_line))]
fn say_refused<W: Write>(writer: &mut Counted<W>, number: u8, name: &str) -> Result<(), WriteFault>
    ensures { Writes W.contents writer.old writer.new (refused_line number name.now) result }
{
    writer.print(format_args!("refused {number} {name}\n"))
}

// Why neither copy is taken.
#[tactic(auto, unfolding(crate::specs::RefusalNames::damaged_line))]
fn say_damaged<W: Write>(
    writer: &mut Counted<W>,
    primary: ReadFault,
    backup: ReadFault,
) -> Result<(), WriteFault>
    ensures { Writes W.contents writer.old writer.new (damaged_line primary backup) result }
{
    writer.put(b"refused 12 NoTable primary ")?;
    say_cause(writer, primary)?;
    writer.put(b" backup ")?;
    say_cause(writer, backup)?;
    writer.put(b"\n")
}

#[tactic(auto, unfolding(crate::specs::RefusalNames::cause_text))]
fn say_cause<W: Write>(writer: &mut Counted<W>, fault: ReadFault) -> Result<(), WriteFault>
    ensures { Writes W.contents writer.old writer.new (cause_text fault) result }
{
    writer.put(fault.name().as_bytes())?;
    say_number(writer, fault.partition())
}
