//! Verifies whole rows of data blocks at once.
ghost use Rattle.std.specs.Prelude.{◌≤◌, ◌<◌, ◌+◌, ◌-◌, ◌*◌, ◌/◌, ◌^◌, true, IfSome, IsTrue, length};
ghost use Rattle.block_device.specs.Call.{DeviceDoes};
ghost use Rattle.tree_shape.specs.Shape.{IsShape};
ghost use Rattle.tree_survey.specs.Pieces.{LieOnDevice, IsRunRead};
ghost use Rattle.verity_format.specs.Blocks.{IsOnlyRead};
ghost use Rattle.verity_format.specs.Image.{data_sectors};
ghost use Rattle.tree_path.specs.Steps.{HasReadAtMost};
ghost use Rattle.tree_repair.specs.AccessBudgets.{LeavesWorld, ReadsData, nothing_due, piece_of, row_reads};
ghost use Rattle.tree_repair.specs.Coverage.{AreDigestsOn, AreGoodFrom, AreGoodInRow, IsGoodRow};
ghost use Rattle.tree_repair.specs.Jobs.{job};
ghost use Rattle.tree_repair.specs.RepairCalls.{HandsToData, IsNoWrite, MakesRepairCalls};
ghost use Rattle.tree_repair.specs.Worlds.{IsWorldRead};

use crate::image::DamagedImage;
use crate::place::{ROOM, Repair, Row};
use block_device::BlockDev;
use hash_tree::digest_blocks;
use tree_path::TreePath;
use tree_shape::{Digest, Salt};
use verity_format::is_same;

// How many of the smallest blocks fit in a visit's buffer.
const MOST_BLOCKS: usize = 128;

/// Returns whether all data blocks of a row were read and verify. They are read in pieces of 64 KiB, and digested in parallel.
pub(crate) fn is_good_row<D: BlockDev, H: BlockDev, C: BlockDev>(
    path: &TreePath,
    repair: &Repair,
    row: Row,
    image: &mut DamagedImage<D, H, C>,
    memory: &mut [u8],
) -> bool
    requires valid { IsShape repair.now.shape }
    requires inside { row.end ≤ repair.now.shape.blocks }
    requires fits { data_sectors repair.now.shape ≤ image.old.world.data_dev.size }
    requires room { 65536 ≤ length memory.old }
    ensures read { IsWorldRead image.old.world image.new.world }
    ensures good { IsTrue result → IsGoodRow (job repair.now) path.now row image.old.world.data_dev }
    ensures asked { LeavesWorld (row_reads repair.now.shape row) nothing_due image.old.world image.new.world }
    ensures called { HandsToData (DeviceDoes D.state D.does) IsNoWrite true image.old image.new }
{
    if row.height > 0 {
        return false;
    }
    are_good(path, repair, row, &mut image.data, memory)
}

// Returns whether the data blocks of a row were read and verify.
fn are_good<D: BlockDev>(
    path: &TreePath,
    repair: &Repair,
    row: Row,
    data_dev: &mut D,
    memory: &mut [u8],
) -> bool
    requires valid { IsShape repair.now.shape }
    requires inside { row.end ≤ repair.now.shape.blocks }
    requires fits { data_sectors repair.now.shape ≤ (D.state data_dev.old).size }
    requires room { 65536 ≤ length memory.old }
    ensures read { IsOnlyRead (D.state data_dev.old) (D.state data_dev.new) }
    ensures good { IsTrue result → AreGoodInRow (job repair.now) path.now row (D.state data_dev.old) }
    ensures asked { ReadsData D.state repair.now.shape (row.end - row.first) data_dev.old data_dev.new }
    ensures counted { (D.state data_dev.old).failures ≤ (D.state data_dev.new).failures }
    ensures called { MakesRepairCalls (DeviceDoes D.state D.does) IsNoWrite true data_dev.old data_dev.new }
{
    let mut index = row.first;
    'pieces: while index < row.end {
        let Some(count) = good_piece(path, repair, index, row.end, data_dev, memory) else {
            return false;
        };
        index += count;
    }
    true
}

// Returns how many blocks from `first` on make up a piece, if all of them verify.
fn good_piece<D: BlockDev>(
    path: &TreePath,
    repair: &Repair,
    first: u64,
    end: u64,
    data_dev: &mut D,
    memory: &mut [u8],
) -> Option<u64>
    requires valid { IsShape repair.now.shape }
    requires first { first < end }
    requires inside { end ≤ repair.now.shape.blocks }
    requires fits { data_sectors repair.now.shape ≤ (D.state data_dev.old).size }
    requires room { 65536 ≤ length memory.old }
    ensures read { IsOnlyRead (D.state data_dev.old) (D.state data_dev.new) }
    ensures some { IfSome result (λ count. 0 < count) }
    ensures few { IfSome result (λ count. first + count ≤ end) }
    ensures good { IfSome result (AreGoodFrom (job repair.now) path.now (D.state data_dev.old) first) }
    ensures asked { ReadsData D.state repair.now.shape (piece_of (end - first) result) data_dev.old data_dev.new }
    ensures counted { (D.state data_dev.old).failures ≤ (D.state data_dev.new).failures }
    ensures called { MakesRepairCalls (DeviceDoes D.state D.does) IsNoWrite true data_dev.old data_dev.new }
{
    let size = repair.shape.data_block() as usize;
    let count = (end - first).min((ROOM / size) as u64);
    let blocks = count as usize;
    let mut made = [Digest::new([0; Digest::SIZE]); MOST_BLOCKS];
    let digests = &mut made[..blocks];
    let run = &mut memory[..blocks * size];
    if !read_run(data_dev, &repair.salt, size, first, run, digests) {
        return None;
    }
    if are_digests(path, first, digests) {
        return Some(count);
    }
    None
}

// Reads blocks of that size into `run`, from block `first` on, and stores their digests. Returns `false` if the read fails.
fn read_run<D: BlockDev>(
    device: &mut D,
    salt: &Salt,
    size: usize,
    first: u64,
    run: &mut [u8],
    digests: &mut [Digest],
) -> bool
    requires { LieOnDevice (D.state device.old) size first (length digests.old) (length run.old) }
    ensures read { IsOnlyRead (D.state device.old) (D.state device.new) }
    ensures good { IsTrue result → IsRunRead (D.state device.old) salt.now size first digests.new (D.state device.new) }
    ensures asked { HasReadAtMost (D.state device.old) (length digests.old * (size / 512)) (D.state device.new) }
    ensures counted { (D.state device.old).failures ≤ (D.state device.new).failures }
    ensures called { MakesRepairCalls (DeviceDoes D.state D.does) IsNoWrite true device.old device.new }
{
    match device.read(first * (size / 512) as u64, run) {
        Ok(()) => {
            digest_blocks(salt, size, run, digests);
            true
        }
        Err(_) => false,
    }
}

// Whether these are the stored digests of the data blocks from `first` on.
fn are_digests(path: &TreePath, first: u64, digests: &[Digest]) -> bool
    requires small { first + length digests.now < 2 ^ 64 }
    ensures { IsTrue result → AreDigestsOn path.now first digests.now }
{
    'digests: for k in 0..digests.len() {
        if !is_same(&digests[k], &path.digest_at(0, first + k as u64)) {
            return false;
        }
    }
    true
}
