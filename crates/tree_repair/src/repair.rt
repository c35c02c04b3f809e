//! Repairs an image from the root down.
ghost use Rattle.std.specs.Prelude.{◌≡◌, ◌≤◌, ◌+◌, ◌^◌, IfErr, IfOk, OnOk, false};
ghost use Rattle.block_device.specs.Call.{DeviceDoes};
ghost use Rattle.tree_shape.specs.Shape.{levels};
ghost use Rattle.tree_repair.specs.AccessBudgets.{LeavesWorld, nothing_due, pass_over};
ghost use Rattle.tree_repair.specs.Bounds.{IsRepairWithin};
ghost use Rattle.tree_repair.specs.Jobs.{job};
ghost use Rattle.tree_repair.specs.ParityBounds.{LeavesNoted, image_blocks};
ghost use Rattle.tree_repair.specs.Outcomes.{IsOutcomeOf, StandsFrom};
ghost use Rattle.tree_repair.specs.Notes.{NotesFrom};
ghost use Rattle.tree_repair.specs.RepairCalls.{wrote_all};
ghost use Rattle.tree_repair.specs.Repairs.{GoesPast, IsAllowed, IsGoneOver, IsRepair, IsUnrepaired, LiesOn, job_of};
ghost use Rattle.tree_repair.specs.RunCalls.{MakesRepair};
ghost use Rattle.tree_repair.specs.Runs.{CanRun, IsWriterCause};

use crate::bad::BadBlocks;
use crate::fault::RepairFault;
use crate::image::DamagedImage;
use crate::levels::repair_height;
use crate::outcome::{Failures, Outcome, outcome_of};
use crate::place::{ROOM, Repair};
use allocation::zeros;
use block_device::BlockDev;
use program_io::Counted;
use std::alloc::Global;
use std::io::Write;
use tree_shape::{Digest, Shape};
use verity_format::{VerifyFault, VerityTree, data_sectors, tree_sectors};

/// The tree and its root hash, the sector (of 512 bytes) of a copy at which the hash image begins, and whether the repair may
/// write.
#[derive(Clone, Copy)]
pub struct Plan {
    pub tree: VerityTree,
    pub root: Digest,
    pub copy_first: u64,
    pub write: bool,
}

/// Scans an image from the root down by the plan's tree, and verifies each block whose hash blocks verify. A corrupt block is
/// sought in the copies; a hash block that no copy has is reconstructed from the blocks below it. If `write` is set, bytes with the
/// block's digest are written. A line is printed for each such block. No superblock is read.
///
/// Returns whether all of the image is known to be valid at the end. Blocks that were found valid aren't read again for that.
/// After a failed call of the image's devices the result is `Partly`, because a sector that couldn't be read may fail again.
///
/// # Errors
///
/// - `Image` with `TooSmall` if the data or the tree don't fit on their device, before any device is accessed.
/// - `Image` if a write failed, or an allocation was refused.
/// - `Write` if a line can't be written.
pub fn repair_image<D: BlockDev, H: BlockDev, C: BlockDev, W: Write>(
    alloc: Global,
    image: &mut DamagedImage<D, H, C>,
    plan: &Plan,
    writer: &mut Counted<W>,
) -> Result<Outcome, RepairFault>
    requires first { plan.now.copy_first ≤ 2 ^ 55 }
    requires allowed { IsAllowed plan.now.write image.old.world.data_dev image.old.world.hash_dev }
    ensures ok { OnOk result (IsRepair W.contents plan.now image.old.world image.new.world writer.old writer.new) }
    ensures err { IfErr result (IsUnrepaired W.contents plan.now image.old.world image.new.world writer.old writer.new) }
    ensures told { IfErr result (IsWriterCause writer.new) }
    ensures within { IsRepairWithin W.contents plan.now image.old.world image.new.world writer.old writer.new result }
    ensures looked { OnOk result (IsGoneOver W.contents plan.now image.old.world image.new.world writer.old writer.new) }
    ensures whole { IfOk result (IsOutcomeOf plan.now image.old.world image.new.world) }
    ensures handed { MakesRepair (DeviceDoes D.state D.does) (DeviceDoes H.state H.does) (job_of plan.now false) (wrote_all result) image.old image.new }
{
    let before = Failures::of(image);
    check_room(image, &plan.tree.shape)?;
    let repair = repair_of(alloc, plan, false);
    let mut bad = BadBlocks::new(alloc, false);
    repair_heights(&repair, 0, image, &mut bad, writer)?;
    let blocks = repair.shape.blocks();
    let good = bad.is_none();
    let sure = before.none_since(image);
    Ok(outcome_of(good, sure, blocks))
}

/// Returns the parameters of a repair.
pub(crate) fn repair_of(alloc: Global, plan: &Plan, parity: bool) -> Repair
    ensures { job result ≡ job_of plan.now parity }
{
    Repair {
        alloc,
        shape: plan.tree.shape,
        salt: plan.tree.salt,
        root: plan.root,
        copy_first: plan.copy_first,
        write: plan.write,
        parity,
    }
}

/// Checks that the data and the tree fit on the devices.
pub(crate) fn check_room<D: BlockDev, H: BlockDev, C: BlockDev>(
    image: &DamagedImage<D, H, C>,
    shape: &Shape,
) -> Result<(), RepairFault>
    ensures ok { OnOk result (LiesOn shape.now image.now.world) }
    ensures err { IfErr result (GoesPast shape.now image.now.world image.now.world) }
{
    let _blocks = shape.blocks();
    if image.data.sectors() < data_sectors(shape) {
        return Err(RepairFault::Image(VerifyFault::TooSmall));
    }
    if image.hash.sectors() < tree_sectors(shape) {
        return Err(RepairFault::Image(VerifyFault::TooSmall));
    }
    Ok(())
}

/// Repairs the heights from the top down to the lowest one: down to the data if that is 0, the tree alone if it is 1.
pub(crate) fn repair_heights<D: BlockDev, H: BlockDev, C: BlockDev, W: Write>(
    repair: &Repair,
    lowest: u32,
    image: &mut DamagedImage<D, H, C>,
    bad: &mut BadBlocks,
    writer: &mut Counted<W>,
) -> Result<(), RepairFault>
    requires can { CanRun (job repair.now) image.old.world }
    requires low { lowest ≤ levels repair.now.shape + 1 }
    ensures notes { NotesFrom W.contents repair.now lowest image.old.world image.new.world bad.old bad.new writer.old writer.new result }
    ensures told { IfErr result (IsWriterCause writer.new) }
    ensures asked { LeavesWorld (pass_over repair.now.shape) nothing_due image.old.world image.new.world }
    ensures few { OnOk result (LeavesNoted (image_blocks repair.now.shape) 0 bad.old bad.new) }
    ensures whole { OnOk result (StandsFrom (job repair.now) lowest image.old.world image.new.world) }
    ensures handed { MakesRepair (DeviceDoes D.state D.does) (DeviceDoes H.state H.does) (job repair.now) (wrote_all result) image.old image.new }
{
    let mut room = zeros(repair.alloc, ROOM)?;
    let memory = room.as_mut_slice();
    let levels = repair.shape.levels();
    let mut height = levels + 1;
    'heights: while height > lowest {
        height -= 1;
        repair_height(repair, height, image, memory, bad, writer)?;
    }
    Ok(())
}
