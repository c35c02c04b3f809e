//! Partitions of disks, as parts of their files.
ghost use Rattle.std.specs.Prelude.{◌≡◌, ◌≤◌, IfErr, IfOk};
ghost use Rattle.allocation.specs.Asked.{asked};
ghost use Rattle.command_line.specs.FilePlaces.{named_partition_record};
ghost use Rattle.partition_table.specs.Labels.{name_room};
ghost use Rattle.image_files.specs.Partitions.{HasNamed, HasUsable, IsNoPartition, IsPartition, IsUnnamed, LacksUsable, backup_refusal, copies_fault, copies_refusal, is_named, is_second, latest, mbr_refusal, only_named, part_of, primary_refusal, table_fault, units, use_refusal, write_refusal};

use allocation::OutOfMemory;
use block_device::{BlockDev, OpenFault};
use command_line::NamedPartition;
use device_adapters::Part;
use partition_table::{
    Mbr, NoTable, Partition, PartitionTable, ReadFault, SectorSize, Source, find_table,
};
use std::alloc::Global;

/// Returns the partition's sectors of 512 bytes.
pub fn part_of(size: SectorSize, partition: &Partition) -> Part
    ensures { result ≡ part_of size partition.now }
{
    Part {
        first: units(size, partition.first),
        count: units(size, partition.sectors()),
    }
}

fn units(size: SectorSize, sectors: u64) -> u64
    ensures { result ≡ units size sectors }
{
    sectors.saturating_mul(size.unit())
}

/// Returns the part of a disk that is the partition which an argument names, if it may be opened for reading, or for writing too.
///
/// # Errors
///
/// - `NotFound` if the disk has no valid partition table, or the argument names none of its partitions, or more than one.
/// - `NotAllowed` if it is to be written, and the primary copy of the table isn't valid, a valid backup differs from it, or the master
///   boot record isn't a protective one.
/// - `OtherFault` if the disk failed, so that no copy of the table was found or, if the partition is to be written, one of these three
///   wasn't read.
/// - `NoMemory` if an allocation was refused, so that a copy of the table wasn't read or a label not compared.
pub(crate) fn partition_part<D: BlockDev>(
    alloc: Global,
    disk: &mut D,
    named: NamedPartition<'_>,
    writable: bool,
) -> Result<Part, OpenFault>
    ensures ok { IfOk result (IsPartition (D.state disk.old) (D.state disk.new) (named_partition_record named.entry) writable) }
    ensures err { IfErr result (IsNoPartition (D.state disk.old) (D.state disk.new) (named_partition_record named.entry) writable) }
{
    match find_table(alloc, disk, SectorSize::Bytes512) {
        Ok(table) => usable_part(alloc, &table, named, writable),
        Err(fault) => Err(table_fault(fault)),
    }
}

// The partition of a table that an argument names, if it may be opened so.
fn usable_part(
    alloc: Global,
    table: &PartitionTable,
    named: NamedPartition<'_>,
    writable: bool,
) -> Result<Part, OpenFault>
    ensures ok { IfOk result (HasUsable table.now (named_partition_record named.entry) writable) }
    ensures err { IfErr result (LacksUsable table.now (named_partition_record named.entry) writable) }
{
    let part = named_part(alloc, table, named)?;
    match use_refusal(table, writable) {
        None => Ok(part),
        Some(fault) => Err(fault),
    }
}

// Why the partitions of a table aren't opened so.
fn use_refusal(table: &PartitionTable, writable: bool) -> Option<OpenFault>
    ensures { result ≡ use_refusal table.now writable }
{
    if writable {
        write_refusal(table.source, table.warnings.mbr)
    } else {
        None
    }
}

// Why the partitions of a table with these copies and this master boot record aren't written.
fn write_refusal(source: Source, mbr: Mbr) -> Option<OpenFault>
    ensures { result ≡ write_refusal source mbr }
{
    match copies_refusal(source) {
        Some(fault) => Some(fault),
        None => mbr_refusal(mbr),
    }
}

fn copies_refusal(source: Source) -> Option<OpenFault>
    ensures { result ≡ copies_refusal source }
{
    match source {
        Source::Both => None,
        Source::Differ => Some(OpenFault::NotAllowed),
        Source::Primary(fault) => backup_refusal(fault),
        Source::Backup(fault) => primary_refusal(fault),
    }
}

// Nobody uses a backup that was read and isn't valid.
fn backup_refusal(fault: ReadFault) -> Option<OpenFault>
    ensures { result ≡ backup_refusal fault }
{
    match fault {
        ReadFault::NoMemory => Some(OpenFault::NoMemory),
        ReadFault::Device => Some(OpenFault::OtherFault),
        ReadFault::Table(_) => None,
    }
}

fn primary_refusal(fault: ReadFault) -> Option<OpenFault>
    ensures { result ≡ primary_refusal fault }
{
    match fault {
        ReadFault::NoMemory => Some(OpenFault::NoMemory),
        ReadFault::Device => Some(OpenFault::OtherFault),
        ReadFault::Table(_) => Some(OpenFault::NotAllowed),
    }
}

fn mbr_refusal(mbr: Mbr) -> Option<OpenFault>
    ensures { result ≡ mbr_refusal mbr }
{
    match mbr {
        Mbr::Protective => None,
        Mbr::Missing | Mbr::Foreign => Some(OpenFault::NotAllowed),
        Mbr::Unread => Some(OpenFault::OtherFault),
    }
}

// The partition of a table that an argument names.
fn named_part(
    alloc: Global,
    table: &PartitionTable,
    named: NamedPartition<'_>,
) -> Result<Part, OpenFault>
    ensures ok { IfOk result (HasNamed table.now (named_partition_record named.entry)) }
    ensures err { IfErr result (IsUnnamed table.now (named_partition_record named.entry)) }
{
    match only_named(alloc, &table.partitions, named) {
        Ok(Some(partition)) => Ok(part_of(table.size, &partition)),
        Ok(None) => Err(OpenFault::NotFound),
        Err(_) => Err(OpenFault::NoMemory),
    }
}

/// Returns the only partition that an argument names, or `None` if it names none or more than one.
///
/// # Errors
///
/// `OutOfMemory` if memory for a label was refused.
pub fn only_named(
    alloc: Global,
    partitions: &[Partition],
    named: NamedPartition<'_>,
) -> Result<Option<Partition>, OutOfMemory>
    ensures ok { IfOk result (λ found. found ≡ only_named (named_partition_record named.entry) partitions.now) }
    ensures err { IfErr result (λ e. asked e ≤ name_room) }
{
    let mut found = None;
    for partition in partitions {
        let fits = is_named(alloc, named, partition)?;
        if is_second(&found, fits) {
            return Ok(None);
        }
        found = latest(&found, partition, fits);
    }
    Ok(found)
}

// Whether an argument names the partition.
fn is_named(
    alloc: Global,
    named: NamedPartition<'_>,
    partition: &Partition,
) -> Result<bool, OutOfMemory>
    ensures ok { IfOk result (λ fits. fits ≡ is_named (named_partition_record named.entry) partition.now) }
    ensures err { IfErr result (λ e. asked e ≤ name_room) }
{
    match named {
        NamedPartition::Number(number) => Ok(partition.number == number),
        NamedPartition::Uuid(uuid) => Ok(partition.has_uuid(uuid.as_slice())),
        NamedPartition::Label(text) => partition.has_label(alloc, text),
    }
}

// Whether a partition is named after another one was found.
fn is_second(found: &Option<Partition>, fits: bool) -> bool
    ensures { result ≡ is_second found.now fits }
{
    fits && found.is_some()
}

// The partition found so far, or this one if it is named.
fn latest(found: &Option<Partition>, partition: &Partition, fits: bool) -> Option<Partition>
    ensures { result ≡ latest found.now partition.now fits }
{
    if fits { Some(*partition) } else { *found }
}

// Why a disk without a table isn't opened.
fn table_fault(fault: NoTable) -> OpenFault
    ensures { result ≡ table_fault fault }
{
    match fault {
        NoTable::TooSmall => OpenFault::NotFound,
        NoTable::Damaged(primary, backup) => copies_fault(primary, backup),
    }
}

// Memory that ran out comes before a failure of the disk, and both before a copy that isn't valid.
fn copies_fault(primary: ReadFault, backup: ReadFault) -> OpenFault
    ensures { result ≡ copies_fault primary backup }
{
    match primary {
        ReadFault::NoMemory => OpenFault::NoMemory,
        ReadFault::Device => match backup {
            ReadFault::NoMemory => OpenFault::NoMemory,
            ReadFault::Device | ReadFault::Table(_) => OpenFault::OtherFault,
        },
        ReadFault::Table(_) => match backup {
            ReadFault::NoMemory => OpenFault::NoMemory,
            ReadFault::Device => OpenFault::OtherFault,
            ReadFault::Table(_) => OpenFault::NotFound,
        },
    }
}
