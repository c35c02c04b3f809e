//! The command `partitions`: the partitions of an image.
ghost use Rattle.std.specs.Prelude.{IfErr, OnOk};
ghost use Rattle.partition_table.specs.Reads.{IsReadAtMost};
ghost use Rattle.partition_table.specs.Tables.{found_reads};
ghost use Rattle.partition_commands.specs.Lines.{SaysTable, SaysText, partition_lines};
ghost use Rattle.partition_commands.specs.Prints.{FailsNoted, IsPrintEnd, IsSayEnd, PrintsTableOf};
ghost use Rattle.stack_files.specs.Warnings.{notes_of};

use crate::PrintFault;
use crate::line::{say_partition, say_source};
use crate::warnings::find_noted;
use block_device::BlockDev;
use partition_table::{Partition, PartitionTable, SectorSize};
use program_io::Counted;
use std::alloc::Global;
use std::io::Write;

/// `partitions IMAGE`: prints which copies of the device's table are good, and a line for each partition; to `errors`, what is
/// unusual of the table.
///
/// # Errors
///
/// - `Table` if the device has no good table.
/// - `NoMemory` if memory for a label was refused.
/// - `Write` if a line can't be written.
pub fn print_partitions<D: BlockDev, W: Write, E: Write>(
    alloc: Global,
    device: &mut D,
    size: SectorSize,
    writer: &mut Counted<W>,
    errors: &mut Counted<E>,
) -> Result<(), PrintFault>
    ensures read { IsReadAtMost (D.state device.old) found_reads (D.state device.new) }
    ensures ok { OnOk result (PrintsTableOf D.state device.old device.new W.contents writer.old writer.new size (notes_of E.contents errors.old errors.new)) }
    ensures err { IfErr result (IsPrintEnd (D.state device.old) (D.state device.new) size writer.new.failed) }
    ensures noted { IfErr result (FailsNoted (D.state device.old) size (notes_of E.contents errors.old errors.new)) }
{
    let table = find_noted(alloc, device, size, errors)?;
    say_table(alloc, writer, &table)
}

// Which copies are good, and the partitions.
fn say_table<W: Write>(
    alloc: Global,
    writer: &mut Counted<W>,
    table: &PartitionTable,
) -> Result<(), PrintFault>
    ensures ok { OnOk result (SaysTable W.contents writer.old writer.new table.now) }
    ensures err { IfErr result (IsSayEnd writer.new.failed) }
{
    say_source(writer, table.source)?;
    say_partitions(alloc, writer, &table.partitions)
}

// A line for each partition.
fn say_partitions<W: Write>(
    alloc: Global,
    writer: &mut Counted<W>,
    partitions: &[Partition],
) -> Result<(), PrintFault>
    ensures ok { OnOk result (SaysText W.contents writer.old writer.new (partition_lines partitions.now)) }
    ensures err { IfErr result (IsSayEnd writer.new.failed) }
{
    for partition in partitions {
        say_partition(alloc, writer, partition)?;
    }
    Ok(())
}
