//! A copy of a partition table, read from a device.
ghost use Rattle.std.specs.Prelude.{◌≡◌, ◌&&◌, ◌⊎◌, ◌+◌, ◌*◌, ◌≤◌, ◌<◌, length, take, Option, Some, None, IfErr, IfOk};
ghost use Rattle.block_device.specs.Call.{DeviceDoes};
ghost use Rattle.block_device.specs.Device.{Device};
ghost use Rattle.partition_table.specs.Copies.{IsArrayCause, IsCopyCause, IsGoodCopy, IsHeaderRead, are_equal, are_like};
ghost use Rattle.partition_table.specs.Disks.{IsDiskOn, unit_of};
ghost use Rattle.partition_table.specs.Headers.{array_bytes, array_sectors, header_fault, table_header};
ghost use Rattle.partition_table.specs.Partitions.{array_fault, partitions_in};
ghost use Rattle.partition_table.specs.Reads.{AreSectorsRead, IsReadAtMost, IsUnread};
ghost use Rattle.partition_table.specs.TableCalls.{CallsAt, CallsOfCopy, CallsOfHeader, MissesAt};
ghost use Rattle.partition_table.specs.Tables.{copy_reads};

use crate::crc::crc32;
use crate::entries::{first_fault, partitions_in};
use crate::header::{Header, header_fault};
use crate::{Disk, Partition, ReadFault, TableFault};
use allocation::zeros;
use block_device::BlockDev;
use std::alloc::Global;

/// A valid copy of a partition table.
#[derive(Drop)]
pub(crate) struct TableCopy {
    pub(crate) header: Header,
    /// The bytes of the entries.
    pub(crate) array: Vec<u8>,
    pub(crate) partitions: Vec<Partition>,
}

impl TableCopy {
    /// Returns the partitions of the copy.
    pub(crate) fn into_partitions(self) -> Vec<Partition>
        ensures { result ≡ self.partitions }
    {
        let TableCopy { partitions, .. } = self;
        partitions
    }

    /// Returns whether both copies agree in their headers and entries.
    pub(crate) fn equals(&self, other: &TableCopy) -> bool
        ensures { result ≡ are_equal self.now other.now }
    {
        are_like(&self.header, &other.header) && self.array.as_slice() == other.array.as_slice()
    }
}

// Returns whether two headers agree in the fields that both copies share.
fn are_like(one: &Header, other: &Header) -> bool
    ensures { result ≡ are_like one.now other.now }
{
    one.first_usable == other.first_usable
        && one.last_usable == other.last_usable
        && one.entry_count == other.entry_count
        && one.entry_size == other.entry_size
        && one.disk_id.as_slice() == other.disk_id.as_slice()
}

/// Reads `count` sectors of the disk from sector `first` on.
///
/// # Errors
///
/// - `Device` if the device call fails.
/// - `NoMemory` if the allocation of at most the sectors' bytes fails.
pub(crate) fn read_sectors<D: BlockDev>(
    alloc: Global,
    device: &mut D,
    disk: Disk,
    first: u64,
    count: u64,
) -> Result<Vec<u8>, ReadFault>
    requires on { IsDiskOn (D.state device.old) disk }
    requires range { (0 < count) × (first + count ≤ disk.sectors) }
    ensures read { IsReadAtMost (D.state device.old) (count * unit_of disk.size) (D.state device.new) }
    ensures ok { IfOk result (λ v. AreSectorsRead (D.state device.old) disk first count v.items) }
    ensures calls { IfOk result (λ v. CallsAt (DeviceDoes D.state D.does) disk first device.old device.new v.items) × IfErr result (MissesAt (DeviceDoes D.state D.does) disk first device.old device.new) }
    ensures err { IfErr result (IsUnread (D.state device.old) (D.state device.new) (count * unit_of disk.size)) }
{
    let mut bytes = zeros(alloc, 512 * disk.units(count) as usize)?;
    device.read(disk.units(first), &mut bytes)?;
    Ok(bytes)
}

// Reads the header in a sector and checks it.
fn read_header<D: BlockDev>(
    alloc: Global,
    device: &mut D,
    disk: Disk,
    sector: u64,
) -> Result<Header, ReadFault>
    requires on { IsDiskOn (D.state device.old) disk }
    requires inside { sector < disk.sectors }
    ensures read { IsReadAtMost (D.state device.old) 8 (D.state device.new) }
    ensures ok { IfOk result (IsHeaderRead (D.state device.old) disk sector) }
    ensures calls { CallsOfHeader (DeviceDoes D.state D.does) disk sector device.old device.new result }
    ensures err { IfErr result (IsCopyCause (D.state device.old) (D.state device.new) disk sector) }
{
    let bytes = read_sectors(alloc, device, disk, sector, 1)?;
    match header_fault(disk, sector, &bytes) {
        Some(fault) => Err(ReadFault::Table(fault)),
        None => Ok(Header::of(&bytes)),
    }
}

// Returns the partitions in the entries after checking them.
fn good_partitions(
    alloc: Global,
    header: &Header,
    array: &[u8],
) -> Result<Vec<Partition>, ReadFault>
    requires size { 128 ≤ header.now.entry_size }
    requires whole { length array.now ≡ array_bytes header.now }
    ensures ok { IfOk result (λ v. (array_fault header.now array.now ≡ None) × (v.items ≡ partitions_in header.now array.now)) }
    ensures err { IfErr result (IsArrayCause header.now array.now) }
{
    if crc32(array) != header.entries_checksum {
        return Err(ReadFault::Table(TableFault::EntriesChecksum));
    }
    let partitions = partitions_in(alloc, header, array)?;
    match first_fault(header, &partitions) {
        Some(fault) => Err(ReadFault::Table(fault)),
        None => Ok(partitions),
    }
}

/// Reads the copy with its header in sector `sector` and checks it.
///
/// # Errors
///
/// - `Device` if a device call fails.
/// - `NoMemory` if an allocation of at most 1 MiB fails.
/// - `Table` with the copy's first fault if it isn't valid.
pub(crate) fn read_copy<D: BlockDev>(
    alloc: Global,
    device: &mut D,
    disk: Disk,
    sector: u64,
) -> Result<TableCopy, ReadFault>
    requires on { IsDiskOn (D.state device.old) disk }
    requires inside { sector < disk.sectors }
    ensures read { IsReadAtMost (D.state device.old) copy_reads (D.state device.new) }
    ensures ok { IfOk result (IsGoodCopy (D.state device.old) disk sector) }
    ensures calls { CallsOfCopy (DeviceDoes D.state D.does) disk sector device.old device.new result }
    ensures err { IfErr result (IsCopyCause (D.state device.old) (D.state device.new) disk sector) }
{
    let header = read_header(alloc, device, disk, sector)?;
    let count = header.array_sectors(disk);
    let mut array = read_sectors(alloc, device, disk, header.entries_sector, count)?;
    array.truncate(header.array_bytes() as usize);
    match good_partitions(alloc, &header, &array) {
        Ok(partitions) => Ok(TableCopy {
            header,
            array,
            partitions,
        }),
        Err(fault) => Err(fault),
    }
}
