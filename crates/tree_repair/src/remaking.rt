//! Reconstructs hash blocks from the blocks below them.
ghost use Rattle.std.specs.Prelude.{◌≡◌, ◌≤◌, ◌<◌, ◌+◌, ◌-◌, ◌*◌, ◌/◌, ◌++◌, ◌^◌, false, true, min, drop, take, IsTrue, length};
ghost use Rattle.block_device.specs.Call.{DeviceDoes};
ghost use Rattle.block_device.specs.Device.{HasFailed};
ghost use Rattle.tree_shape.specs.Digests.{digest};
ghost use Rattle.tree_shape.specs.Shape.{IsShape, level_blocks, levels, per_block, position};
ghost use Rattle.verity_format.specs.Blocks.{IsOnlyRead};
ghost use Rattle.verity_format.specs.Image.{data_sectors, tree_sectors};
ghost use Rattle.tree_path.specs.Steps.{HasReadAtMost};
ghost use Rattle.tree_repair.specs.AccessBudgets.{LeavesBeneath, LeavesBlock, LeavesMade, made_over};
ghost use Rattle.tree_repair.specs.StoredTrees.{HasOneFailedIn, IsMadeIn, IsNowhereIn, IsOverIn, IsUnmadeIn, made_in, stands_in};
ghost use Rattle.tree_path.specs.Unused.{digests_in};
ghost use Rattle.tree_repair.specs.Remaking.{HaveBlocks, IsBlockOf, IsHashBlockOf};
ghost use Rattle.tree_repair.specs.RepairCalls.{IsNoWrite, MakesRepairCalls, ReadsAt, ReadsBoth};
ghost use Rattle.tree_repair.specs.Runs.{size_at};
ghost use Rattle.tree_repair.specs.Worlds.{AreBothRead};

use crate::image::DamagedImage;
use crate::mending::WantedBlock;
use crate::place::{Repair, block_size, count_at};
use block_device::BlockDev;
use tree_shape::{Digest, Shape};
use verity_format::is_same;

/// Reconstructs the hash block of a level on the path to a data block: from the blocks one height below it; failing that from
/// the next height, and so on down to the data. Returns whether a reconstructed block has the digest; the block is in `block`
/// then. If a block of a height can't be read, no block is made from that height. `memory` has 4,096 bytes for each height
/// below the block.
pub(crate) fn remake<D: BlockDev, H: BlockDev, C: BlockDev>(
    sought: &WantedBlock<'_>,
    level: u32,
    index: u64,
    image: &mut DamagedImage<D, H, C>,
    block: &mut [u8],
    memory: &mut [u8],
) -> bool
    requires have { HaveBlocks sought.now.repair.now.shape image.old.world.data_dev image.old.world.hash_dev }
    requires inside { index < sought.now.repair.now.shape.blocks }
    requires level { level < levels sought.now.repair.now.shape }
    requires size { length block.old ≡ sought.now.repair.now.shape.hash_block }
    requires room { 4096 * (level + 1) ≤ length memory.old }
    ensures read { AreBothRead image.old.world image.new.world }
    ensures good { IsTrue result → digest sought.now.repair.now.salt block.new ≡ sought.now.digest }
    ensures made { IsTrue result → IsMadeIn sought.now.repair.now image.old.world level index block.new }
    ensures none { result ≡ false → IsNowhereIn sought.now.repair.now image.old.world image.new.world level index sought.now.digest }
    ensures asked { LeavesBeneath sought.now.repair.now.shape level index image.old.world image.new.world }
    ensures called { ReadsBoth (DeviceDoes D.state D.does) (DeviceDoes H.state H.does) image.old image.new }
{
    let repair = sought.repair;
    let number = repair.shape.block_on_path(level, index);
    let mut from = level + 1;
    'heights: while from > 0 {
        from -= 1;
        let steps = level + 1 - from;
        let making = Making {
            from,
            steps,
            number,
        };
        if is_made(repair, making, &sought.digest, image, block, memory) {
            return true;
        }
    }
    false
}

/// A block to be made: its index in its height, and how many heights it is above the blocks that it is made from.
#[derive(Clone, Copy)]
struct Making {
    from: u32,
    steps: u32,
    number: u64,
}

// Makes a block, and returns whether it has the digest.
fn is_made<D: BlockDev, H: BlockDev, C: BlockDev>(
    repair: &Repair,
    making: Making,
    expected: &Digest,
    image: &mut DamagedImage<D, H, C>,
    block: &mut [u8],
    memory: &mut [u8],
) -> bool
    requires have { HaveBlocks repair.now.shape image.old.world.data_dev image.old.world.hash_dev }
    requires high { making.from + making.steps ≤ levels repair.now.shape }
    requires inside { making.number < digests_in repair.now.shape (making.from + making.steps) }
    requires size { length block.old ≡ size_at repair.now.shape (making.from + making.steps) }
    requires room { 4096 * making.steps ≤ length memory.old }
    ensures read { AreBothRead image.old.world image.new.world }
    ensures good { IsTrue result → digest repair.now.salt block.new ≡ expected.now }
    ensures stand { IsTrue result → IsOverIn image.old.world (made_in repair.now image.old.world making) block.new }
    ensures none { result ≡ false → IsUnmadeIn repair.now image.old.world image.new.world expected.now (made_in repair.now image.old.world making) }
    ensures asked { LeavesMade repair.now.shape making image.old.world image.new.world }
    ensures called { ReadsBoth (DeviceDoes D.state D.does) (DeviceDoes H.state H.does) image.old image.new }
{
    if !make(repair, making, image, block, memory) {
        return false;
    }
    is_same(&repair.salt.digest(block), expected)
}

// Makes a block, and returns whether the blocks that it is made from could be read.
fn make<D: BlockDev, H: BlockDev, C: BlockDev>(
    repair: &Repair,
    making: Making,
    image: &mut DamagedImage<D, H, C>,
    block: &mut [u8],
    memory: &mut [u8],
) -> bool
    requires have { HaveBlocks repair.now.shape image.old.world.data_dev image.old.world.hash_dev }
    requires high { making.from + making.steps ≤ levels repair.now.shape }
    requires inside { making.number < digests_in repair.now.shape (making.from + making.steps) }
    requires size { length block.old ≡ size_at repair.now.shape (making.from + making.steps) }
    requires room { 4096 * making.steps ≤ length memory.old }
    ensures read { AreBothRead image.old.world image.new.world }
    ensures made { IsTrue result → IsOverIn image.old.world (made_in repair.now image.old.world making) block.new }
    ensures fails { result ≡ false → HasOneFailedIn image.old.world image.new.world }
    ensures asked { LeavesMade repair.now.shape making image.old.world image.new.world }
    ensures called { ReadsBoth (DeviceDoes D.state D.does) (DeviceDoes H.state H.does) image.old image.new }
{
    let Making {
        from,
        steps,
        number,
    } = making;
    if steps == 0 {
        return read_at(&repair.shape, from, number, image, block);
    }
    let height = from + (steps - 1);
    let beneath = children_of(&repair.shape, height, number);
    let (child, rest) = memory.split_at_mut(block_size(&repair.shape, height));
    block.fill(0);
    'each: for slot in 0..beneath.count {
        let next = beneath.first + slot;
        let below = Making {
            from,
            steps: steps - 1,
            number: next,
        };
        if !make(repair, below, image, child, rest) {
            return false;
        }
        put_digest(&repair.salt.digest(child), slot, block);
    }
    true
}

// A run of blocks of a height.
#[derive(Clone, Copy)]
struct Children {
    first: u64,
    count: u64,
}

// Returns the blocks of a height whose digests are in one block of the height above.
fn children_of(shape: &Shape, height: u32, number: u64) -> Children
    requires high { height < levels shape.now }
    requires inside { number < level_blocks shape.now height }
    ensures first { result.first ≡ number * per_block shape.now }
    ensures count { result.count ≡ min (per_block shape.now) (digests_in shape.now height - number * per_block shape.now) }
    ensures inside { result.first + result.count ≤ 2 ^ 62 }
{
    let per_block = shape.per_block();
    let first = number * per_block;
    let count = count_at(shape, height).saturating_sub(first).min(per_block);
    Children { first, count }
}

// Writes a digest to its slot in a hash block.
fn put_digest(digest: &Digest, slot: u64, block: &mut [u8])
    requires { 32 * slot + 32 ≤ length block.old }
    ensures { block.new ≡ take (32 * slot) block.old ++ digest.now ++ drop (32 * slot + 32) block.old }
{
    let at = slot as usize * Digest::SIZE;
    block[at..at + Digest::SIZE].copy_from_slice(digest.as_bytes());
}

// Reads a block of a height without verifying it, and returns whether it could be read.
fn read_at<D: BlockDev, H: BlockDev, C: BlockDev>(
    shape: &Shape,
    height: u32,
    number: u64,
    image: &mut DamagedImage<D, H, C>,
    block: &mut [u8],
) -> bool
    requires have { HaveBlocks shape.now image.old.world.data_dev image.old.world.hash_dev }
    requires high { height ≤ levels shape.now }
    requires inside { number < digests_in shape.now height }
    requires size { length block.old ≡ size_at shape.now height }
    ensures read { AreBothRead image.old.world image.new.world }
    ensures stands { IsTrue result → IsOverIn image.old.world (stands_in shape.now image.old.world height number) block.new }
    ensures fails { result ≡ false → HasOneFailedIn image.old.world image.new.world }
    ensures asked { LeavesBlock (made_over shape.now height) shape.now height number image.old.world image.new.world }
    ensures called { ReadsAt (DeviceDoes D.state D.does) (DeviceDoes H.state H.does) height image.old image.new }
{
    if height == 0 {
        return read_data(shape, number, &mut image.data, block);
    }
    read_hash(shape, height - 1, number, &mut image.hash, block)
}

#[tactic(auto, unfolding(verity_format::specs::Blocks::block_at))]
fn read_data<D: BlockDev>(shape: &Shape, number: u64, data_dev: &mut D, block: &mut [u8]) -> bool
    requires valid { IsShape shape.now }
    requires fits { data_sectors shape.now ≤ (D.state data_dev.old).size }
    requires inside { number < shape.now.blocks }
    requires size { length block.old ≡ shape.now.data_block }
    ensures read { IsOnlyRead (D.state data_dev.old) (D.state data_dev.new) }
    ensures stands { IsTrue result → IsBlockOf (D.state data_dev.old) shape.now.data_block number block.new }
    ensures fails { result ≡ false → HasFailed (D.state data_dev.old) (D.state data_dev.new) }
    ensures asked { HasReadAtMost (D.state data_dev.old) (shape.now.data_block / 512) (D.state data_dev.new) }
    ensures counted { (D.state data_dev.old).failures ≤ (D.state data_dev.new).failures }
    ensures called { MakesRepairCalls (DeviceDoes D.state D.does) IsNoWrite true data_dev.old data_dev.new }
{
    let size = block.len();
    let first = number * (size / 512) as u64;
    data_dev.read(first, block).is_ok()
}

/// Reads a hash block without verifying it, and returns whether it could be read.
#[tactic(auto, unfolding(verity_format::specs::Blocks::block_at))]
pub(crate) fn read_hash<H: BlockDev>(
    shape: &Shape,
    level: u32,
    number: u64,
    hash_dev: &mut H,
    block: &mut [u8],
) -> bool
    requires valid { IsShape shape.now }
    requires fits { tree_sectors shape.now ≤ (H.state hash_dev.old).size }
    requires level { level < levels shape.now }
    requires inside { number < level_blocks shape.now level }
    requires size { length block.old ≡ shape.now.hash_block }
    ensures read { IsOnlyRead (H.state hash_dev.old) (H.state hash_dev.new) }
    ensures stands { IsTrue result → IsHashBlockOf (H.state hash_dev.old) shape.now level number block.new }
    ensures fails { result ≡ false → HasFailed (H.state hash_dev.old) (H.state hash_dev.new) }
    ensures asked { HasReadAtMost (H.state hash_dev.old) (shape.now.hash_block / 512) (H.state hash_dev.new) }
    ensures counted { (H.state hash_dev.old).failures ≤ (H.state hash_dev.new).failures }
    ensures called { MakesRepairCalls (DeviceDoes H.state H.does) IsNoWrite true hash_dev.old hash_dev.new }
{
    let size = block.len();
    let place = shape.position(level, number);
    let first = place * (size / 512) as u64;
    hash_dev.read(first, block).is_ok()
}
