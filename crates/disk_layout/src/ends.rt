//! The two ends of a disk with a partition table.
ghost use Rattle.std.specs.Prelude.{◌≡◌, ◌≤◌, ◌+◌, ◌*◌, ◌^◌, ◌++◌, IfErr, IfOk, length};
ghost use Rattle.allocation.specs.Asked.{asked};
ghost use Rattle.partition_table.specs.Disks.{bytes_of_size, unit_of};
ghost use Rattle.disk_layout.specs.Ends.{back_bytes, back_sector, backup_header, entries_sectors, front_bytes, primary_header};
ghost use Rattle.disk_layout.specs.Headers.{header_sector};
ghost use Rattle.disk_layout.specs.Mbrs.{mbr_sector};
ghost use Rattle.disk_layout.specs.Numbers.{table_room};

use crate::entries::entries_array;
use crate::header::{TableHeader, header_sector};
use crate::mbr::mbr_sector;
use allocation::{OutOfMemory, append, copied};
use partition_table::{Disk, Partition, SectorSize, crc32};
use std::alloc::Global;

/// The bytes at the beginning of a disk, the master boot record and the primary copy of the table, and those at its end, the backup.
#[derive(Drop)]
pub struct TableEnds {
    pub front: Vec<u8>,
    pub back: Vec<u8>,
}

/// Returns both ends of a disk with that identifier and these partitions, of which at most 128 are stored.
///
/// # Errors
///
/// `OutOfMemory` if room for at most 32,768 bytes was refused.
#[tactic(auto, unfolding(crate::specs::Ends::front_bytes, crate::specs::Ends::back_bytes))]
pub fn table_ends(
    alloc: Global,
    disk: Disk,
    disk_id: [u8; 16],
    partitions: &[Partition],
) -> Result<TableEnds, OutOfMemory>
    ensures front { IfOk result (λ ends. ends.front.items ≡ front_bytes disk disk_id partitions.now) }
    ensures back { IfOk result (λ ends. ends.back.items ≡ back_bytes disk disk_id partitions.now) }
    ensures sizes { IfOk result (λ ends. (length ends.front.items ≡ 2 * bytes_of_size disk.size + 16384) × (length ends.back.items ≡ bytes_of_size disk.size + 16384)) }
    ensures err { IfErr result (λ e. asked e ≤ table_room) }
{
    let array = entries_array(alloc, partitions)?;
    let checksum = crc32(&array);
    let primary = primary_header(disk, disk_id, checksum);
    let backup = backup_header(disk, disk_id, checksum);
    let front = front_of(alloc, disk, &primary, &array)?;
    let back = back_of(alloc, disk.size, &backup, &array)?;
    Ok(TableEnds { front, back })
}

/// Returns the sector of 512 bytes at which the end of a disk begins that is written: the backup's entries.
pub fn back_sector(disk: Disk) -> u64
    requires { disk.sectors * unit_of disk.size ≤ 2 ^ 54 }
    ensures { result ≡ back_sector disk }
{
    match disk.size {
        SectorSize::Bytes512 => disk.sectors.saturating_sub(33),
        SectorSize::Bytes4096 => disk.sectors.saturating_sub(5) * 8,
    }
}

// How many sectors the entries take.
fn entries_sectors(size: SectorSize) -> u64
    ensures value { result ≡ entries_sectors size }
    ensures few { result ≤ 32 }
{
    match size {
        SectorSize::Bytes512 => 32,
        SectorSize::Bytes4096 => 4,
    }
}

// The header in sector 1.
fn primary_header(disk: Disk, disk_id: [u8; 16], checksum: u32) -> TableHeader
    ensures { result ≡ primary_header disk disk_id checksum }
{
    let ahead = entries_sectors(disk.size);
    TableHeader {
        own: 1,
        other: disk.sectors.saturating_sub(1),
        first_usable: 2 + ahead,
        last_usable: disk.sectors.saturating_sub(2 + ahead),
        disk_id,
        entries: 2,
        entries_checksum: checksum,
    }
}

// The header in the last sector.
fn backup_header(disk: Disk, disk_id: [u8; 16], checksum: u32) -> TableHeader
    ensures { result ≡ backup_header disk disk_id checksum }
{
    let ahead = entries_sectors(disk.size);
    TableHeader {
        own: disk.sectors.saturating_sub(1),
        other: 1,
        first_usable: 2 + ahead,
        last_usable: disk.sectors.saturating_sub(2 + ahead),
        disk_id,
        entries: disk.sectors.saturating_sub(1 + ahead),
        entries_checksum: checksum,
    }
}

// The master boot record, the header and the entries.
fn front_of(
    alloc: Global,
    disk: Disk,
    header: &TableHeader,
    array: &[u8],
) -> Result<Vec<u8>, OutOfMemory>
    requires { length array.now ≡ 16384 }
    ensures ok { IfOk result (λ v. v.items ≡ mbr_sector disk ++ (header_sector disk.size header.now ++ array.now)) }
    ensures size { IfOk result (λ v. length v.items ≡ 2 * bytes_of_size disk.size + 16384) }
    ensures err { IfErr result (λ e. asked e ≤ table_room) }
{
    let mut text = mbr_sector(alloc, disk)?;
    let sector = header_sector(alloc, disk.size, header)?;
    append(&mut text, &sector)?;
    append(&mut text, array)?;
    Ok(text)
}

// The entries and the header.
fn back_of(
    alloc: Global,
    size: SectorSize,
    header: &TableHeader,
    array: &[u8],
) -> Result<Vec<u8>, OutOfMemory>
    requires { length array.now ≡ 16384 }
    ensures ok { IfOk result (λ v. v.items ≡ array.now ++ header_sector size header.now) }
    ensures size { IfOk result (λ v. length v.items ≡ bytes_of_size size + 16384) }
    ensures err { IfErr result (λ e. asked e ≤ table_room) }
{
    let mut text = copied(alloc, array)?;
    let sector = header_sector(alloc, size, header)?;
    append(&mut text, &sector)?;
    Ok(text)
}
