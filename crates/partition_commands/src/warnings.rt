//! What is unusual of a table, printed among the errors.
ghost use Rattle.std.specs.Prelude.{◌≡◌, IfErr, IfOk, OnErr};
ghost use Rattle.partition_table.specs.Reads.{IsReadAtMost};
ghost use Rattle.partition_table.specs.Tables.{IsNoSizedTable, found_reads};
ghost use Rattle.program_io.specs.Counted.{Writes};
ghost use Rattle.stack_files.specs.Warnings.{notes_of};
ghost use Rattle.partition_commands.specs.Warnings.{FindsNoted, backup_sector_warning, backup_warnings, copies_warnings, differ_warning, end_line, end_warning, end_warnings, mbr_warning, primary_warnings, sector_warning, warning_text};

use crate::parts::is_within;
use block_device::BlockDev;
use image_files::part_of;
use partition_table::{
    CopyWarnings, Mbr, NoTable, Partition, PartitionTable, SectorSize, Source, find_table,
};
use program_io::{Counted, WriteFault};
use stack_files::{say_if, say_warning};
use std::alloc::Global;
use std::io::Write;

/// Finds the table of a device, and prints a line among the errors for each thing that is unusual of it. If the errors'
/// writer fails, the table is returned all the same.
///
/// # Errors
///
/// Those of `find_table`; then nothing is printed.
pub(crate) fn find_noted<D: BlockDev, E: Write>(
    alloc: Global,
    device: &mut D,
    size: SectorSize,
    errors: &mut Counted<E>,
) -> Result<PartitionTable, NoTable>
    ensures read { IsReadAtMost (D.state device.old) found_reads (D.state device.new) }
    ensures ok { IfOk result (FindsNoted (D.state device.old) (D.state device.new) size (notes_of E.contents errors.old errors.new)) }
    ensures err { IfErr result (IsNoSizedTable (D.state device.old) (D.state device.new) size) }
    ensures unnoted { OnErr result (E.contents errors.new.inner ≡ E.contents errors.old.inner) }
{
    let table = find_table(alloc, device, size)?;
    let _said = say_warnings(errors, device, &table);
    Ok(table)
}

// A line for each thing that is unusual of a table on a device.
fn say_warnings<D: BlockDev, W: Write>(
    writer: &mut Counted<W>,
    device: &D,
    table: &PartitionTable,
) -> Result<(), WriteFault>
    ensures { Writes W.contents writer.old writer.new (warning_text (D.state device.now) table.now) result }
{
    say_copies(writer, table)?;
    say_ends(writer, device, table.size, &table.partitions)
}

// Of the master boot record and of both copies.
#[tactic(auto, unfolding(crate::specs::Warnings::copies_warnings))]
fn say_copies<W: Write>(writer: &mut Counted<W>, table: &PartitionTable) -> Result<(), WriteFault>
    ensures { Writes W.contents writer.old writer.new (copies_warnings table.now) result }
{
    say_mbr(writer, table.warnings.mbr)?;
    say_differ(writer, table.source)?;
    say_primary(writer, table.warnings.primary)?;
    say_backup(writer, table.warnings.backup)
}

fn say_mbr<W: Write>(writer: &mut Counted<W>, mbr: Mbr) -> Result<(), WriteFault>
    ensures { Writes W.contents writer.old writer.new (mbr_warning mbr) result }
{
    match mbr {
        Mbr::Protective => writer.put(b""),
        Mbr::Missing => say_warning(writer, b"there is no protective MBR"),
        Mbr::Foreign => say_warning(writer, b"the MBR isn't a protective one"),
        Mbr::Unread => say_warning(writer, b"the MBR can't be read"),
    }
}

fn say_differ<W: Write>(writer: &mut Counted<W>, source: Source) -> Result<(), WriteFault>
    ensures { Writes W.contents writer.old writer.new (differ_warning source) result }
{
    match source {
        Source::Differ => say_warning(
            writer,
            b"the two copies of the table differ; the primary one is used",
        ),
        Source::Both | Source::Primary(_) | Source::Backup(_) => writer.put(b""),
    }
}

#[tactic(auto, unfolding(crate::specs::Warnings::primary_warnings))]
fn say_primary<W: Write>(writer: &mut Counted<W>, warnings: CopyWarnings) -> Result<(), WriteFault>
    ensures { Writes W.contents writer.old writer.new (primary_warnings warnings) result }
{
    say_backup_sector(writer, warnings)?;
    say_if(
        writer,
        warnings.reserved,
        b"reserved bytes of the primary header aren't zero",
    )
}

#[tactic(auto, unfolding(crate::specs::Warnings::backup_sector_warning))]
fn say_backup_sector<W: Write>(
    writer: &mut Counted<W>,
    warnings: CopyWarnings,
) -> Result<(), WriteFault>
    ensures { Writes W.contents writer.old writer.new (backup_sector_warning warnings) result }
{
    say_sector(
        writer,
        warnings,
        b"the primary header places the backup past the end of the disk",
        b"the primary header places the backup before the last sector",
    )
}

#[tactic(auto, unfolding(crate::specs::Warnings::backup_warnings))]
fn say_backup<W: Write>(writer: &mut Counted<W>, warnings: CopyWarnings) -> Result<(), WriteFault>
    ensures { Writes W.contents writer.old writer.new (backup_warnings warnings) result }
{
    say_sector(
        writer,
        warnings,
        b"the backup places the primary table past the end of the disk",
        b"the backup doesn't place the primary table in sector 1",
    )?;
    say_if(
        writer,
        warnings.reserved,
        b"reserved bytes of the backup header aren't zero",
    )
}

// Of the sector that a header names as the other copy's.
#[tactic(auto, unfolding(crate::specs::Warnings::sector_warning))]
fn say_sector<W: Write>(
    writer: &mut Counted<W>,
    warnings: CopyWarnings,
    past: &[u8],
    elsewhere: &[u8],
) -> Result<(), WriteFault>
    ensures { Writes W.contents writer.old writer.new (sector_warning warnings past.now elsewhere.now) result }
{
    if warnings.cut_short {
        say_warning(writer, past)
    } else {
        say_if(writer, warnings.alternate, elsewhere)
    }
}

// Of each partition that ends past the end of the device.
fn say_ends<D: BlockDev, W: Write>(
    writer: &mut Counted<W>,
    device: &D,
    size: SectorSize,
    partitions: &[Partition],
) -> Result<(), WriteFault>
    ensures { Writes W.contents writer.old writer.new (end_warnings (D.state device.now) size partitions.now) result }
{
    for partition in partitions {
        say_end(writer, device, size, partition)?;
    }
    Ok(())
}

fn say_end<D: BlockDev, W: Write>(
    writer: &mut Counted<W>,
    device: &D,
    size: SectorSize,
    partition: &Partition,
) -> Result<(), WriteFault>
    ensures { Writes W.contents writer.old writer.new (end_warning (D.state device.now) size partition.now) result }
{
    if is_within(device, part_of(size, partition)) {
        writer.put(b"")
    } else {
        say_end_line(writer, partition.number)
    }
}

#[tactic(auto, unfolding(crate::specs::Warnings::end_line))]
fn say_end_line<W: Write>(writer: &mut Counted<W>, number: u32) -> Result<(), WriteFault>
    ensures { Writes W.contents writer.old writer.new (end_line number) result }
{
    writer.print(format_args!("dmstack: warning: the disk ends before partition {number} does\n"))
}
