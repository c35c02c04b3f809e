//! The printed lines of a table.
ghost use Rattle.std.specs.Prelude.{◌++◌, IfErr, OnOk, codes};
ghost use Rattle.program_io.specs.Counted.{Writes};
ghost use Rattle.partition_commands.specs.Lines.{SaysText, fault_line, line_with, number_word, partition_line, range_text, source_line, uuid_word, uuids_text};
ghost use Rattle.partition_commands.specs.Prints.{IsSayEnd};

use crate::{PrintFault, kind_name};
use partition_table::{Partition, ReadFault, Source, label_text};
use program_io::{Counted, WriteFault};
use std::alloc::Global;
use std::io::Write;
use uuid::Uuid;

// The number, the first sector and how many there are.
#[tactic(auto, unfolding(crate::specs::Lines::range_text))]
fn say_range<W: Write>(writer: &mut Counted<W>, partition: &Partition) -> Result<(), WriteFault>
    ensures { Writes W.contents writer.old writer.new (range_text partition.now) result }
{
    let number = partition.number;
    let first = partition.first;
    let sectors = partition.sectors();
    writer.print(format_args!("{number} "))?;
    writer.print(format_args!("{first} "))?;
    writer.print(format_args!("{sectors} "))
}

// An identifier and a space.
#[tactic(auto, unfolding(crate::specs::Lines::uuid_word))]
fn say_uuid<W: Write>(writer: &mut Counted<W>, uuid: &[u8; 16]) -> Result<(), WriteFault>
    ensures { Writes W.contents writer.old writer.new (uuid_word uuid.now) result }
{
    let mut buffer = Uuid::encode_buffer();
    let text = Uuid::from_bytes(*uuid)
        .hyphenated()
        .encode_lower(&mut buffer);
    say_word(writer, text.as_bytes())
}

// A word and a space.
fn say_word<W: Write>(writer: &mut Counted<W>, word: &[u8]) -> Result<(), WriteFault>
    ensures { Writes W.contents writer.old writer.new (word.now ++ codes " ") result }
{
    writer.put(word)?;
    writer.put(b" ")
}

// The type, its name, and the partition's own identifier.
#[tactic(auto, unfolding(crate::specs::Lines::uuids_text))]
fn say_uuids<W: Write>(writer: &mut Counted<W>, partition: &Partition) -> Result<(), WriteFault>
    ensures { Writes W.contents writer.old writer.new (uuids_text partition.now) result }
{
    say_uuid(writer, &partition.kind)?;
    writer.put(kind_name(&partition.kind).as_bytes())?;
    writer.put(b" ")?;
    say_uuid(writer, &partition.uuid)
}

// A partition, with its label as text.
fn say_labeled<W: Write>(
    writer: &mut Counted<W>,
    partition: &Partition,
    label: &str,
) -> Result<(), WriteFault>
    ensures { Writes W.contents writer.old writer.new (line_with partition.now label.now) result }
{
    say_range(writer, partition)?;
    say_uuids(writer, partition)?;
    writer.put(label.as_bytes())?;
    writer.put(b"\n")
}

/// A line for a partition.
#[tactic(auto, unfolding(crate::specs::Lines::partition_line))]
pub(crate) fn say_partition<W: Write>(
    alloc: Global,
    writer: &mut Counted<W>,
    partition: &Partition,
) -> Result<(), PrintFault>
    ensures ok { OnOk result (SaysText W.contents writer.old writer.new (partition_line partition.now)) }
    ensures err { IfErr result (IsSayEnd writer.new.failed) }
{
    let label = label_text(alloc, &partition.label)?;
    say_labeled(writer, partition, label.as_str())?;
    Ok(())
}

// Which copy is good, which isn't, and why.
#[tactic(auto, unfolding(crate::specs::Lines::fault_line))]
fn say_fault<W: Write>(
    writer: &mut Counted<W>,
    good: &[u8],
    fault: ReadFault,
) -> Result<(), WriteFault>
    ensures { Writes W.contents writer.old writer.new (fault_line good.now fault) result }
{
    writer.put(good)?;
    writer.put(fault.name().as_bytes())?;
    say_number(writer, fault.partition())?;
    writer.put(b"\n")
}

/// Writes a space and the number of a partition, if there is one.
pub(crate) fn say_number<W: Write>(
    writer: &mut Counted<W>,
    number: Option<u32>,
) -> Result<(), WriteFault>
    ensures { Writes W.contents writer.old writer.new (number_word number) result }
{
    match number {
        Some(number) => writer.print(format_args!(" {number}")),
        None => writer.put(b""),
    }
}

/// Which copies of the table are good.
pub(crate) fn say_source<W: Write>(
    writer: &mut Counted<W>,
    source: Source,
) -> Result<(), WriteFault>
    ensures { Writes W.contents writer.old writer.new (source_line source) result }
{
    match source {
        Source::Both => writer.put(b"copies both\n"),
        Source::Differ => writer.put(b"copies differ\n"),
        Source::Primary(fault) => say_fault(writer, b"copies primary, backup ", fault),
        Source::Backup(fault) => say_fault(writer, b"copies backup, primary ", fault),
    }
}
