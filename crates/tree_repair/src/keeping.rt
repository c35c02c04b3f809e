//! Reads blocks back after they were written.
ghost use Rattle.std.specs.Prelude.{◌≡◌, ◌≤◌, ◌<◌, ◌&&◌, true, length};
ghost use Rattle.block_device.specs.Call.{DeviceDoes};
ghost use Rattle.tree_survey.specs.Surveys.{IsWay};
ghost use Rattle.tree_repair.specs.AccessBudgets.{LeavesWorld, block_read, nothing_due};
ghost use Rattle.tree_repair.specs.Flaws.{IsReadOr};
ghost use Rattle.tree_repair.specs.Jobs.{job};
ghost use Rattle.tree_repair.specs.Noting.{was_put};
ghost use Rattle.tree_repair.specs.RepairCalls.{ReadsAt};
ghost use Rattle.tree_repair.specs.Runs.{CanRun, size_at};
ghost use Rattle.tree_repair.specs.Worlds.{IsWorldRead};

use crate::image::DamagedImage;
use crate::mending::Mended;
use crate::place::{Place, Repair, block_size};
use crate::putting::first_sector;
use crate::seeking::is_there;
use block_device::BlockDev;
use tree_path::TreePath;

/// Returns whether a block that was written reads back with its digest. Blocks that weren't written aren't read.
pub(crate) fn is_kept<D: BlockDev, H: BlockDev, C: BlockDev>(
    path: &TreePath,
    repair: &Repair,
    place: Place,
    mended: Mended,
    image: &mut DamagedImage<D, H, C>,
    memory: &mut [u8],
) -> bool
    requires can { CanRun (job repair.now) image.old.world }
    requires inside { place.index < repair.now.shape.blocks }
    requires way { IsWay (job repair.now).tree place.index place.height path.now }
    requires room { size_at repair.now.shape place.height ≤ length memory.old }
    ensures read { IsWorldRead image.old.world image.new.world }
    ensures kept { IsReadOr (job repair.now) place.height place.index (was_put repair.now.write mended) image.old.world image.new.world result }
    ensures asked { LeavesWorld (block_read repair.now.shape place.height) nothing_due image.old.world image.new.world }
    ensures called { ReadsAt (DeviceDoes D.state D.does) (DeviceDoes H.state H.does) place.height image.old image.new }
{
    if !was_put(mended, repair.write) {
        return true;
    }
    is_read_back(path, repair, place, image, memory)
}

// Returns whether a block reads with its digest.
fn is_read_back<D: BlockDev, H: BlockDev, C: BlockDev>(
    path: &TreePath,
    repair: &Repair,
    place: Place,
    image: &mut DamagedImage<D, H, C>,
    memory: &mut [u8],
) -> bool
    requires can { CanRun (job repair.now) image.old.world }
    requires inside { place.index < repair.now.shape.blocks }
    requires way { IsWay (job repair.now).tree place.index place.height path.now }
    requires room { size_at repair.now.shape place.height ≤ length memory.old }
    ensures read { IsWorldRead image.old.world image.new.world }
    ensures kept { IsReadOr (job repair.now) place.height place.index true image.old.world image.new.world result }
    ensures asked { LeavesWorld (block_read repair.now.shape place.height) nothing_due image.old.world image.new.world }
    ensures called { ReadsAt (DeviceDoes D.state D.does) (DeviceDoes H.state H.does) place.height image.old image.new }
{
    let Place { height, index } = place;
    let size = block_size(&repair.shape, height);
    let first = first_sector(repair, place);
    let digest = path.digest_at(height, index);
    let block = &mut memory[..size];
    if height == 0 {
        return is_there(&mut image.data, first, &repair.salt, &digest, block);
    }
    is_there(&mut image.hash, first, &repair.salt, &digest, block)
}

// Whether the block was written.
fn was_put(mended: Mended, write: bool) -> bool
    ensures { result ≡ was_put write mended }
{
    match mended {
        Mended::Good => false,
        Mended::Copy(_) => write,
        Mended::Remade => write,
        Mended::Parity => write,
        Mended::Lost => false,
    }
}

pub(crate) fn are_both(all: bool, back: bool) -> bool
    ensures { result ≡ (all && back) }
{
    all && back
}
