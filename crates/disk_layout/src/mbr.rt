//! A protective master boot record as bytes.
ghost use Rattle.std.specs.Prelude.{◌≡◌, ◌≤◌, ◌++◌, IfErr, IfOk, OnOk, length};
ghost use Rattle.allocation.specs.Asked.{asked};
ghost use Rattle.partition_table.specs.Disks.{bytes_of_size};
ghost use Rattle.disk_layout.specs.Mbrs.{mbr_bytes, mbr_sector, protected_sectors, protective_record};
ghost use Rattle.disk_layout.specs.Numbers.{table_room};

use crate::numbers::{pad, push32};
use allocation::{OutOfMemory, append, zeros};
use partition_table::Disk;
use std::alloc::Global;

const MOST_SECTORS: u64 = 0xffff_ffff;

/// Returns sector 0 of a disk: one record of type 0xEE for all other sectors, as far as it can state them, and zeros.
#[tactic(auto, unfolding(crate::specs::Mbrs::mbr_sector))]
pub(crate) fn mbr_sector(alloc: Global, disk: Disk) -> Result<Vec<u8>, OutOfMemory>
    ensures ok { IfOk result (λ v. v.items ≡ mbr_sector disk) }
    ensures size { IfOk result (λ v. length v.items ≡ bytes_of_size disk.size) }
    ensures err { IfErr result (λ e. asked e ≤ table_room) }
{
    let mut text = mbr_bytes(alloc, protected_sectors(disk))?;
    pad(&mut text, disk.size.bytes() as usize)?;
    Ok(text)
}

// How many sectors are protected: those after sector 0, at most 2^32 - 1.
fn protected_sectors(disk: Disk) -> u32
    ensures { result ≡ protected_sectors disk }
{
    disk.sectors.saturating_sub(1).min(MOST_SECTORS) as u32
}

// The 512 bytes.
#[tactic(auto, unfolding(crate::specs::Mbrs::mbr_bytes))]
fn mbr_bytes(alloc: Global, sectors: u32) -> Result<Vec<u8>, OutOfMemory>
    ensures ok { IfOk result (λ v. v.items ≡ mbr_bytes sectors) }
    ensures err { IfErr result (λ e. asked e ≤ table_room) }
{
    let mut text = zeros(alloc, 446)?;
    push_record(&mut text, sectors)?;
    append(&mut text, &[0u8; 46])?;
    push32(&mut text, 0xaa55_0000)?;
    Ok(text)
}

// The record: it isn't bootable, and its first sector is 1; its places by cylinder are those that UEFI wants.
#[tactic(auto, unfolding(crate::specs::Mbrs::protective_record))]
fn push_record(text: &mut Vec<u8>, sectors: u32) -> Result<(), OutOfMemory>
    ensures ok { OnOk result (text.new.items ≡ text.old.items ++ protective_record sectors) }
    ensures err { IfErr result (λ e. asked e ≤ table_room) }
{
    push32(text, 0x0002_0000)?;
    push32(text, 0xffff_ffee)?;
    push32(text, 1)?;
    push32(text, sectors)?;
    Ok(())
}
