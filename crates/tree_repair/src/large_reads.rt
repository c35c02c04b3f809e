//! Reads runs of blocks from copies.
ghost use Rattle.std.specs.Prelude.{◌≤◌, ◌<◌, ◌+◌, ◌-◌, ◌/◌, ◌%◌, ◌^◌, ◌≡◌, IsTrue, map};
ghost use Rattle.block_device.specs.Call.{DeviceDoes};
ghost use Rattle.verity_format.specs.Blocks.{IsOnlyRead};
ghost use Rattle.tree_repair.specs.CopyReads.{ReadsCopyOnce};
ghost use Rattle.tree_repair.specs.Fetches.{IsReadAtMostOnce};
ghost use Rattle.tree_repair.specs.RepairCalls.{ReadsBoth};
ghost use Rattle.tree_repair.specs.Sources.{AreEachRead};
ghost use Rattle.tree_repair.specs.Worlds.{IsWorldRead};

use crate::image::DamagedImage;
use block_device::BlockDev;

/// Reads the sectors from `first` on of a copy of the data into a buffer, by one read. Returns `false` if there is no such copy, it
/// ends before them, or the read fails.
pub(crate) fn read_from_copy<D: BlockDev, H: BlockDev, C: BlockDev>(
    image: &mut DamagedImage<D, H, C>,
    copy: usize,
    first: u64,
    bytes: &mut [u8],
) -> bool
    ensures read { IsWorldRead image.old.world image.new.world }
    ensures called { ReadsBoth (DeviceDoes D.state D.does) (DeviceDoes H.state H.does) image.old image.new }
    ensures once { ReadsCopyOnce copy first bytes.new image.old.world.data_copies image.new.world.data_copies }
{
    read_one(&mut image.data_copies, copy, first, bytes)
}

/// Returns how many copies of the data there are.
pub(crate) fn copies_of<D: BlockDev, H: BlockDev, C: BlockDev>(
    image: &DamagedImage<D, H, C>,
) -> usize {
    image.data_copies.len()
}

// Reads from one of some copies.
fn read_one<C: BlockDev>(copies: &mut Vec<C>, k: usize, first: u64, bytes: &mut [u8]) -> bool
    ensures read { AreEachRead (map C.state copies.old.items) (map C.state copies.new.items) }
    ensures once { ReadsCopyOnce k first bytes.new (map C.state copies.old.items) (map C.state copies.new.items) }
{
    read_slice(copies.as_mut_slice(), k, first, bytes)
}

// Reads from one of a slice of copies.
fn read_slice<C: BlockDev>(copies: &mut [C], k: usize, first: u64, bytes: &mut [u8]) -> bool
    ensures read { AreEachRead (map C.state copies.old) (map C.state copies.new) }
    ensures once { ReadsCopyOnce k first bytes.new (map C.state copies.old) (map C.state copies.new) }
{
    if !has_copy(copies.len(), k) {
        return false;
    }
    read_inside(&mut copies[k], first, bytes)
}

// Returns whether there is a copy of that number among so many.
fn has_copy(count: usize, k: usize) -> bool
    ensures { IsTrue result → k < count }
{
    if k < count {
        return true;
    }
    false
}

// Reads sectors by one read, if the device has them.
fn read_inside<C: BlockDev>(device: &mut C, first: u64, bytes: &mut [u8]) -> bool
    ensures read { IsOnlyRead (C.state device.old) (C.state device.new) }
    ensures counted { (C.state device.old).failures ≤ (C.state device.new).failures }
    ensures called { IsReadAtMostOnce (DeviceDoes C.state C.does) first bytes.new device.old device.new }
{
    let size = device.sectors();
    if !is_inside(size, first, bytes.len()) {
        return false;
    }
    match device.read(first, bytes) {
        Ok(()) => true,
        Err(_) => false,
    }
}

// Returns whether a device of that many sectors has so many bytes from a sector on.
fn is_inside(size: u64, first: u64, len: usize) -> bool
    ensures some { IsTrue result → 0 < len }
    ensures whole { IsTrue result → len % 512 ≡ 0 }
    ensures inside { IsTrue result → first + len / 512 ≤ size }
    ensures low { IsTrue result → first < 2 ^ 64 - 1 }
{
    if len == 0 {
        return false;
    }
    if len % 512 != 0 {
        return false;
    }
    let sectors = (len / 512) as u64;
    if size < sectors {
        return false;
    }
    if size - sectors < first {
        return false;
    }
    true
}
