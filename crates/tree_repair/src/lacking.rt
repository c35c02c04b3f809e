//! Finds runs of data blocks that the data device lacks.
ghost use Rattle.std.specs.Prelude.{◌≡◌, ◌<◌, ◌≤◌, IfSome, IsTrue, false, length};
ghost use Rattle.block_device.specs.Call.{DeviceDoes};
ghost use Rattle.tree_survey.specs.Surveys.{IsWay};
ghost use Rattle.tree_repair.specs.Fetches.{AreLacking, IsLacking, IsNotLacking, IsNotOnData, IsOnData, IsWholeRun, most_blocks};
ghost use Rattle.tree_repair.specs.Jobs.{job};
ghost use Rattle.tree_repair.specs.ParitySearches.{IsOfTree};
ghost use Rattle.tree_repair.specs.RepairCalls.{ReadsBoth};
ghost use Rattle.tree_repair.specs.Runs.{CanRun, size_at};
ghost use Rattle.tree_repair.specs.Worlds.{IsWorldRead};

use crate::covered::is_place;
use crate::image::DamagedImage;
use crate::place::{Place, Repair};
use crate::seeking::is_there;
use crate::verified_path::VerifiedPath;
use block_device::BlockDev;
use tree_path::TreePath;

/// How many bytes a read of a copy has at most.
pub(crate) const MOST: usize = 1_048_576;

/// Neighbouring data blocks, from the first one on and before the end.
#[derive(Clone, Copy)]
pub(crate) struct BlockRun {
    pub(crate) first: u64,
    pub(crate) end: u64,
}

/// Returns the next run of blocks that the data device lacks, from a block on: at most 1 MiB.
pub(crate) fn next_run<D: BlockDev, H: BlockDev, C: BlockDev>(
    last_path: &mut VerifiedPath,
    repair: &Repair,
    from: u64,
    image: &mut DamagedImage<D, H, C>,
    block: &mut [u8],
) -> Option<BlockRun>
    requires tree { IsOfTree (job repair.now).tree last_path.old.path }
    requires can { CanRun (job repair.now) image.old.world }
    requires size { length block.old ≡ size_at repair.now.shape 0 }
    ensures tree { IsOfTree (job repair.now).tree last_path.new.path }
    ensures read { IsWorldRead image.old.world image.new.world }
    ensures lacking { IfSome result (λ run. IsLacking (job repair.now) run.first image.old.world image.new.world × AreLacking (job repair.now) run.first run.end image.old.world image.new.world) }
    ensures apart { IfSome result (λ run. from ≤ run.first × run.first ≤ run.end) }
    ensures full { IfSome result (λ run. IsWholeRun (job repair.now) repair.now.shape.data_block run.first run.end image.old.world) }
    ensures called { ReadsBoth (DeviceDoes D.state D.does) (DeviceDoes H.state H.does) image.old image.new }
    ensures kept { image.new.world.data_copies ≡ image.old.world.data_copies }
{
    let Some(first) = next_lacking(last_path, repair, from, image, block) else {
        return None;
    };
    let end = end_of_run(last_path, repair, first, image, block);
    Some(BlockRun { first, end })
}

// Returns the next block that the data device lacks, from a block on.
fn next_lacking<D: BlockDev, H: BlockDev, C: BlockDev>(
    last_path: &mut VerifiedPath,
    repair: &Repair,
    from: u64,
    image: &mut DamagedImage<D, H, C>,
    block: &mut [u8],
) -> Option<u64>
    requires tree { IsOfTree (job repair.now).tree last_path.old.path }
    requires can { CanRun (job repair.now) image.old.world }
    requires size { length block.old ≡ size_at repair.now.shape 0 }
    ensures tree { IsOfTree (job repair.now).tree last_path.new.path }
    ensures read { IsWorldRead image.old.world image.new.world }
    ensures lacking { IfSome result (λ index. IsLacking (job repair.now) index image.old.world image.new.world) }
    ensures low { IfSome result (λ index. from ≤ index) }
    ensures called { ReadsBoth (DeviceDoes D.state D.does) (DeviceDoes H.state H.does) image.old image.new }
    ensures kept { image.new.world.data_copies ≡ image.old.world.data_copies }
{
    let blocks = repair.shape.blocks();
    'each: for index in from..blocks {
        if is_lacking(last_path, repair, index, image, block) {
            return Some(index);
        }
    }
    None
}

// Returns the end of the run of blocks that the data device lacks, which begins with a block: at most 1 MiB after its first sector.
fn end_of_run<D: BlockDev, H: BlockDev, C: BlockDev>(
    last_path: &mut VerifiedPath,
    repair: &Repair,
    first: u64,
    image: &mut DamagedImage<D, H, C>,
    block: &mut [u8],
) -> u64
    requires tree { IsOfTree (job repair.now).tree last_path.old.path }
    requires can { CanRun (job repair.now) image.old.world }
    requires size { length block.old ≡ size_at repair.now.shape 0 }
    ensures tree { IsOfTree (job repair.now).tree last_path.new.path }
    ensures read { IsWorldRead image.old.world image.new.world }
    ensures lacking { AreLacking (job repair.now) first result image.old.world image.new.world }
    ensures after { first ≤ result }
    ensures full { IsWholeRun (job repair.now) (length block.old) first result image.old.world }
    ensures called { ReadsBoth (DeviceDoes D.state D.does) (DeviceDoes H.state H.does) image.old image.new }
    ensures kept { image.new.world.data_copies ≡ image.old.world.data_copies }
{
    let mut end = first.saturating_add(1);
    let most = most_blocks(block.len());
    'each: for _turn in 1..most {
        if !is_lacking(last_path, repair, end, image, block) {
            return end;
        }
        let following = end.saturating_add(1);
        end = following;
    }
    end
}

// Returns how many blocks of that size are read at once.
fn most_blocks(size: usize) -> u64
    ensures { 0 < size → result ≡ most_blocks size }
{
    if size == 0 {
        return 0;
    }
    (MOST / size) as u64
}

/// Returns whether all hash blocks above a data block verify, and the data device doesn't have it.
pub(crate) fn is_lacking<D: BlockDev, H: BlockDev, C: BlockDev>(
    last_path: &mut VerifiedPath,
    repair: &Repair,
    index: u64,
    image: &mut DamagedImage<D, H, C>,
    block: &mut [u8],
) -> bool
    requires tree { IsOfTree (job repair.now).tree last_path.old.path }
    requires can { CanRun (job repair.now) image.old.world }
    requires size { length block.old ≡ size_at repair.now.shape 0 }
    ensures tree { IsOfTree (job repair.now).tree last_path.new.path }
    ensures read { IsWorldRead image.old.world image.new.world }
    ensures lacking { IsTrue result → IsLacking (job repair.now) index image.old.world image.new.world }
    ensures other { result ≡ false → IsNotLacking (job repair.now) index image.old.world }
    ensures called { ReadsBoth (DeviceDoes D.state D.does) (DeviceDoes H.state H.does) image.old image.new }
    ensures kept { image.new.world.data_copies ≡ image.old.world.data_copies }
{
    let place = Place { height: 0, index };
    if !is_place(repair, place) {
        return false;
    }
    if !last_path.reach(repair, image, place.index, place.height) {
        return false;
    }
    isnt_on_data(&last_path.path, repair, index, image, block)
}

// Returns whether a read of a data block doesn't give its bytes.
fn isnt_on_data<D: BlockDev, H: BlockDev, C: BlockDev>(
    path: &TreePath,
    repair: &Repair,
    index: u64,
    image: &mut DamagedImage<D, H, C>,
    block: &mut [u8],
) -> bool
    requires can { CanRun (job repair.now) image.old.world }
    requires inside { index < repair.now.shape.blocks }
    requires way { IsWay (job repair.now).tree index 0 path.now }
    requires size { length block.old ≡ size_at repair.now.shape 0 }
    ensures read { IsWorldRead image.old.world image.new.world }
    ensures bad { IsTrue result → IsNotOnData (job repair.now) path.now index image.old.world image.new.world }
    ensures there { result ≡ false → IsOnData (job repair.now) path.now index image.old.world block.new }
    ensures called { ReadsBoth (DeviceDoes D.state D.does) (DeviceDoes H.state H.does) image.old image.new }
    ensures kept { image.new.world.data_copies ≡ image.old.world.data_copies }
{
    let size = block.len();
    let first = index * (size / 512) as u64;
    let digest = path.digest_at(0, index);
    if is_there(&mut image.data, first, &repair.salt, &digest, block) {
        return false;
    }
    true
}
