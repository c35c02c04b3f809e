//! Finds the bytes of a block by their digest.
ghost use Rattle.std.specs.Prelude.{◌≡◌, ◌≤◌, ◌/◌, ◌%◌, ◌+◌, ◌<◌, ◌^◌, false, true, IfNone, IfSome, IsTrue, length, map};
ghost use Rattle.block_device.specs.Call.{DeviceDoes};
ghost use Rattle.block_device.specs.Device.{IsInside};
ghost use Rattle.verity_format.specs.Blocks.{IsOnlyRead};
ghost use Rattle.tree_path.specs.Steps.{HasReadAtMost};
ghost use Rattle.tree_repair.specs.Bounds.{AreReadAtMost};
ghost use Rattle.tree_repair.specs.RepairCalls.{IsNoWrite, IsReadOnce, MakesRepairCalls};
ghost use Rattle.tree_repair.specs.Sources.{AreEachRead, AreInNone, FindsBad, FindsNone, HasCopy, HasNoCopy, IsThere, due};

use block_device::BlockDev;
use tree_shape::{Digest, Salt};
use verity_format::is_same;

/// Reads the sectors from `first` on into `block`, and returns whether they have the digest. Returns `false` if the read fails.
pub(crate) fn is_there<B: BlockDev>(
    device: &mut B,
    first: u64,
    salt: &Salt,
    digest: &Digest,
    block: &mut [u8],
) -> bool
    requires { IsInside (B.state device.old) first (length block.old) }
    ensures read { IsOnlyRead (B.state device.old) (B.state device.new) }
    ensures good { IsTrue result → IsThere (B.state device.old) first (due salt.now digest.now block.old) block.new }
    ensures bad { result ≡ false → FindsBad B.state device.old device.new first (due salt.now digest.now block.old) }
    ensures asked { HasReadAtMost (B.state device.old) (length block.old / 512) (B.state device.new) }
    ensures counted { (B.state device.old).failures ≤ (B.state device.new).failures }
    ensures called { IsReadOnce (DeviceDoes B.state B.does) first block.new device.old device.new }
{
    match device.read(first, block) {
        Ok(()) => is_same(&salt.digest(block), digest),
        Err(_) => false,
    }
}

/// Returns the same as `is_there`, and `false` if the device ends before the block's end.
pub(crate) fn has<B: BlockDev>(
    device: &mut B,
    first: u64,
    salt: &Salt,
    digest: &Digest,
    block: &mut [u8],
) -> bool
    requires some { 0 < length block.old }
    requires whole { length block.old % 512 ≡ 0 }
    requires small { first + length block.old / 512 < 2 ^ 64 }
    ensures read { IsOnlyRead (B.state device.old) (B.state device.new) }
    ensures good { IsTrue result → IsThere (B.state device.old) first (due salt.now digest.now block.old) block.new }
    ensures none { result ≡ false → FindsNone B.state device.old device.new first (due salt.now digest.now block.old) }
    ensures asked { HasReadAtMost (B.state device.old) (length block.old / 512) (B.state device.new) }
    ensures counted { (B.state device.old).failures ≤ (B.state device.new).failures }
    ensures called { MakesRepairCalls (DeviceDoes B.state B.does) IsNoWrite true device.old device.new }
{
    let sectors = (block.len() / 512) as u64;
    let end = first + sectors;
    let size = device.sectors();
    if size < end {
        return false;
    }
    is_there(device, first, salt, digest, block)
}

/// Returns the number of the first copy, counted from 1, whose sectors from `first` on have the digest. They are in `block`
/// then.
pub(crate) fn seek<C: BlockDev>(
    copies: &mut Vec<C>,
    first: u64,
    salt: &Salt,
    digest: &Digest,
    block: &mut [u8],
) -> Option<usize>
    requires some { 0 < length block.old }
    requires whole { length block.old % 512 ≡ 0 }
    requires small { first + length block.old / 512 < 2 ^ 64 }
    ensures read { AreEachRead (map C.state copies.old.items) (map C.state copies.new.items) }
    ensures found { IfSome result (HasCopy C.state copies.old.items first (due salt.now digest.now block.old) block.new) }
    ensures none { IfNone result (AreInNone (map C.state copies.old.items) (map C.state copies.new.items) first (due salt.now digest.now block.old)) }
    ensures asked { AreReadAtMost (map C.state copies.old.items) (length block.old / 512) (map C.state copies.new.items) }
{
    seek_copies(copies.as_mut_slice(), first, salt, digest, block)
}

// Searches a slice of copies.
fn seek_copies<C: BlockDev>(
    copies: &mut [C],
    first: u64,
    salt: &Salt,
    digest: &Digest,
    block: &mut [u8],
) -> Option<usize>
    requires some { 0 < length block.old }
    requires whole { length block.old % 512 ≡ 0 }
    requires small { first + length block.old / 512 < 2 ^ 64 }
    ensures read { AreEachRead (map C.state copies.old) (map C.state copies.new) }
    ensures found { IfSome result (HasCopy C.state copies.old first (due salt.now digest.now block.old) block.new) }
    ensures none { IfNone result (HasNoCopy C.state copies.old copies.new first (due salt.now digest.now block.old)) }
    ensures asked { AreReadAtMost (map C.state copies.old) (length block.old / 512) (map C.state copies.new) }
{
    'copies: for k in 0..copies.len() {
        if has(&mut copies[k], first, salt, digest, block) {
            return Some(k + 1);
        }
    }
    None
}
