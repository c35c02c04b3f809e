//! The header of a partition table as bytes.
ghost use Rattle.std.specs.Prelude.{◌≡◌, ◌≤◌, ◌++◌, IfErr, IfOk, OnOk, length};
ghost use Rattle.allocation.specs.Asked.{asked};
ghost use Rattle.partition_table.specs.Disks.{bytes_of_size};
ghost use Rattle.disk_layout.specs.Headers.{entries_fields, header_bytes, header_sector, place_fields, start_fields, usable_fields};
ghost use Rattle.disk_layout.specs.Numbers.{table_room};

use crate::numbers::{pad, push_uuid, push32, push64};
use allocation::{OutOfMemory, append};
use partition_table::{SectorSize, crc32};
use std::alloc::Global;

const REVISION: u32 = 0x10000;

const HEADER_SIZE: u32 = 92;

/// The number of entries, and the size of each in bytes.
pub(crate) const ENTRIES: u32 = 128;

pub(crate) const ENTRY_SIZE: u32 = 128;

/// A header: the sectors of itself, of the other copy's header and of its entries, the usable sectors, the identifier of the disk in
/// the byte order of its text form, and the checksum of the entries.
#[derive(Clone, Copy)]
pub(crate) struct TableHeader {
    pub(crate) own: u64,
    pub(crate) other: u64,
    pub(crate) first_usable: u64,
    pub(crate) last_usable: u64,
    pub(crate) disk_id: [u8; 16],
    pub(crate) entries: u64,
    pub(crate) entries_checksum: u32,
}

/// Returns the sector of a header: its fields, with its checksum, and zeros.
#[tactic(auto, unfolding(crate::specs::Headers::header_sector))]
pub(crate) fn header_sector(
    alloc: Global,
    size: SectorSize,
    header: &TableHeader,
) -> Result<Vec<u8>, OutOfMemory>
    ensures ok { IfOk result (λ v. v.items ≡ header_sector size header.now) }
    ensures size { IfOk result (λ v. length v.items ≡ bytes_of_size size) }
    ensures err { IfErr result (λ e. asked e ≤ table_room) }
{
    let unsigned = header_bytes(alloc, header, 0)?;
    let checksum = crc32(&unsigned);
    let mut text = header_bytes(alloc, header, checksum)?;
    pad(&mut text, size.bytes() as usize)?;
    Ok(text)
}

// The fields of a header with that checksum.
fn header_bytes(alloc: Global, header: &TableHeader, checksum: u32) -> Result<Vec<u8>, OutOfMemory>
    ensures ok { IfOk result (λ v. v.items ≡ header_bytes header.now checksum) }
    ensures err { IfErr result (λ e. asked e ≤ table_room) }
{
    let mut text = Vec::new(alloc);
    push_header(&mut text, header, checksum)?;
    Ok(text)
}

#[tactic(auto, unfolding(crate::specs::Headers::header_bytes))]
fn push_header(text: &mut Vec<u8>, header: &TableHeader, checksum: u32) -> Result<(), OutOfMemory>
    ensures ok { OnOk result (text.new.items ≡ text.old.items ++ header_bytes header.now checksum) }
    ensures err { IfErr result (λ e. asked e ≤ table_room) }
{
    push_start(text, checksum)?;
    push_places(text, header)?;
    push_usable(text, header)?;
    push_entries(text, header)?;
    Ok(())
}

// The signature, the revision, the size of the header, and its checksum.
#[tactic(auto, unfolding(crate::specs::Headers::start_fields))]
fn push_start(text: &mut Vec<u8>, checksum: u32) -> Result<(), OutOfMemory>
    ensures ok { OnOk result (text.new.items ≡ text.old.items ++ start_fields checksum) }
    ensures err { IfErr result (λ e. asked e ≤ table_room) }
{
    append(text, b"EFI PART")?;
    push32(text, REVISION)?;
    push32(text, HEADER_SIZE)?;
    push32(text, checksum)?;
    Ok(())
}

// A reserved field, the sectors of the two headers, and the first usable one.
#[tactic(auto, unfolding(crate::specs::Headers::place_fields))]
fn push_places(text: &mut Vec<u8>, header: &TableHeader) -> Result<(), OutOfMemory>
    ensures ok { OnOk result (text.new.items ≡ text.old.items ++ place_fields header.now) }
    ensures err { IfErr result (λ e. asked e ≤ table_room) }
{
    push32(text, 0)?;
    push64(text, header.own)?;
    push64(text, header.other)?;
    push64(text, header.first_usable)?;
    Ok(())
}

// The last usable sector, the disk's identifier, and the first sector and the number of entries.
#[tactic(auto, unfolding(crate::specs::Headers::usable_fields))]
fn push_usable(text: &mut Vec<u8>, header: &TableHeader) -> Result<(), OutOfMemory>
    ensures ok { OnOk result (text.new.items ≡ text.old.items ++ usable_fields header.now) }
    ensures err { IfErr result (λ e. asked e ≤ table_room) }
{
    push64(text, header.last_usable)?;
    push_uuid(text, &header.disk_id)?;
    push64(text, header.entries)?;
    push32(text, ENTRIES)?;
    Ok(())
}

// The size of an entry, and the checksum of all.
#[tactic(auto, unfolding(crate::specs::Headers::entries_fields))]
fn push_entries(text: &mut Vec<u8>, header: &TableHeader) -> Result<(), OutOfMemory>
    ensures ok { OnOk result (text.new.items ≡ text.old.items ++ entries_fields header.now) }
    ensures err { IfErr result (λ e. asked e ≤ table_room) }
{
    push32(text, ENTRY_SIZE)?;
    push32(text, header.entries_checksum)?;
    Ok(())
}
