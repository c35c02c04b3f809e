//! Repairs an image in passes, with parity.
ghost use Rattle.std.specs.Prelude.{◌≤◌, ◌^◌, IfErr, IfOk, IsTrue, OnOk, true};
ghost use Rattle.block_device.specs.Call.{DeviceDoes};
ghost use Rattle.fec_area.specs.Layouts.{IsLaidOn};
ghost use Rattle.verity_format.specs.Blocks.{IsOnlyRead};
ghost use Rattle.tree_repair.specs.Jobs.{job};
ghost use Rattle.tree_repair.specs.Outcomes.{IsAllGood, IsParityOutcome};
ghost use Rattle.tree_repair.specs.ParityBounds.{IsParityWithin};
ghost use Rattle.tree_repair.specs.RepairCalls.{wrote_all};
ghost use Rattle.tree_repair.specs.Repairs.{IsAllowed, IsParityRepair, IsParityUnrepaired, IsSoughtByParity, job_of};
ghost use Rattle.tree_repair.specs.RunCalls.{MakesRepair};
ghost use Rattle.tree_repair.specs.Runs.{CanRun, IsWriterCause, Ran};
ghost use Rattle.tree_repair.specs.Searching.{EndsPasses, MakesPass, RunsPass, RunsPasses};
ghost use Rattle.tree_repair.specs.Worlds.{IsParityRead};

use crate::bad::BadBlocks;
use crate::fault::RepairFault;
use crate::image::DamagedImage;
use crate::outcome::{Failures, Outcome, outcome_of};
use crate::parity::{ParityOutcome, restore_bad};
use crate::place::Repair;
use crate::repair::{Plan, check_room, repair_heights, repair_of};
use block_device::BlockDev;
use fec_area::Layout;
use program_io::Counted;
use std::alloc::Global;
use std::io::Write;

/// Repairs an image as `repair_image` does, and restores each block that no other source has by the parity of its round; all
/// blocks of the round that the pass found corrupt count as lost. If `write` is set, the image is scanned again after each pass
/// in which parity restored a hash block.
///
/// Returns whether all of the image is known to be valid at the end. It needs 32 bytes of memory for each corrupt block.
///
/// # Errors
///
/// - `Image` with `TooSmall` if the data or the tree don't fit on their device, before any device is accessed.
/// - `Image` if a write failed, or an allocation was refused.
/// - `Write` if a line can't be written.
pub fn repair_with_parity<D: BlockDev, H: BlockDev, C: BlockDev, P: BlockDev, W: Write>(
    alloc: Global,
    image: &mut DamagedImage<D, H, C>,
    layout: &Layout,
    parity_dev: &mut P,
    plan: &Plan,
    writer: &mut Counted<W>,
) -> Result<Outcome, RepairFault>
    requires first { plan.now.copy_first ≤ 2 ^ 55 }
    requires allowed { IsAllowed plan.now.write image.old.world.data_dev image.old.world.hash_dev }
    requires laid { IsLaidOn layout.now image.old.world.data_dev image.old.world.hash_dev }
    ensures parity { IsOnlyRead (P.state parity_dev.old) (P.state parity_dev.new) }
    ensures ok { OnOk result (IsParityRepair W.contents plan.now image.old.world image.new.world writer.old writer.new) }
    ensures err { IfErr result (IsParityUnrepaired W.contents plan.now image.old.world image.new.world writer.old writer.new) }
    ensures told { IfErr result (IsWriterCause writer.new) }
    ensures within { IsParityWithin W.contents plan.now layout.now image.old.world image.new.world (P.state parity_dev.old) (P.state parity_dev.new) writer.old writer.new result }
    ensures whole { IfOk result (IsParityOutcome plan.now image.old.world image.new.world) }
    ensures sought { OnOk result (IsSoughtByParity P.state plan.now layout.now image.old.world image.new.world parity_dev.old parity_dev.new) }
    ensures handed { MakesRepair (DeviceDoes D.state D.does) (DeviceDoes H.state H.does) (job_of plan.now true) (wrote_all result) image.old image.new }
{
    let before = Failures::of(image);
    check_room(image, &plan.tree.shape)?;
    let repair = repair_of(alloc, plan, true);
    let all = run_passes(&repair, layout, image, parity_dev, writer)?;
    let blocks = repair.shape.blocks();
    let sure = before.none_since(image);
    Ok(outcome_of(all, sure, blocks))
}

// Runs passes until one restores no hash block by parity. Each further pass follows one that restored a hash block, so there
// are at most as many passes as hash blocks and one more. Returns whether all of the image is valid at the end.
fn run_passes<D: BlockDev, H: BlockDev, C: BlockDev, P: BlockDev, W: Write>(
    repair: &Repair,
    layout: &Layout,
    image: &mut DamagedImage<D, H, C>,
    parity: &mut P,
    writer: &mut Counted<W>,
) -> Result<bool, RepairFault>
    requires asked { IsTrue repair.now.parity }
    requires can { CanRun (job repair.now) image.old.world }
    requires laid { IsLaidOn layout.now image.old.world.data_dev image.old.world.hash_dev }
    ensures parity { IsParityRead (P.state parity.old) (P.state parity.new) }
    ensures run { Ran W.contents (job repair.now) image.old.world image.new.world writer.old writer.new result }
    ensures told { IfErr result (IsWriterCause writer.new) }
    ensures asks { EndsPasses P.state repair.now layout.now image.old.world image.new.world parity.old parity.new result }
    ensures whole { IfOk result (λ all. IsTrue all → IsAllGood (job repair.now) image.old.world image.new.world) }
    ensures within { RunsPasses W.contents P.state repair.now layout.now image.old.world image.new.world parity.old parity.new writer.old writer.new result }
    ensures handed { MakesRepair (DeviceDoes D.state D.does) (DeviceDoes H.state H.does) (job repair.now) (wrote_all result) image.old image.new }
{
    let mut left = layout.hash_blocks;
    let mut came = run_pass(repair, layout, image, parity, writer)?;
    'passes: while came.tree && left > 0 {
        left -= 1;
        came = run_pass(repair, layout, image, parity, writer)?;
    }
    Ok(came.all)
}

// Runs a pass over the image, then restores lost blocks. Returns whether a hash block was restored and written, so that another
// pass is needed, and whether all of the image is valid.
fn run_pass<D: BlockDev, H: BlockDev, C: BlockDev, P: BlockDev, W: Write>(
    repair: &Repair,
    layout: &Layout,
    image: &mut DamagedImage<D, H, C>,
    parity: &mut P,
    writer: &mut Counted<W>,
) -> Result<ParityOutcome, RepairFault>
    requires asked { IsTrue repair.now.parity }
    requires can { CanRun (job repair.now) image.old.world }
    requires laid { IsLaidOn layout.now image.old.world.data_dev image.old.world.hash_dev }
    ensures parity { IsParityRead (P.state parity.old) (P.state parity.new) }
    ensures run { Ran W.contents (job repair.now) image.old.world image.new.world writer.old writer.new result }
    ensures told { IfErr result (IsWriterCause writer.new) }
    ensures pass { MakesPass P.state repair.now layout.now image.old.world image.new.world parity.old parity.new result }
    ensures whole { IfOk result (λ came. IsTrue came.all → IsAllGood (job repair.now) image.old.world image.new.world) }
    ensures within { RunsPass W.contents P.state repair.now layout.now image.old.world image.new.world parity.old parity.new writer.old writer.new result }
    ensures handed { MakesRepair (DeviceDoes D.state D.does) (DeviceDoes H.state H.does) (job repair.now) (wrote_all result) image.old image.new }
{
    let mut bad = BadBlocks::new(repair.alloc, true);
    repair_heights(repair, 0, image, &mut bad, writer)?;
    let came = restore_bad(repair, layout, bad.noted(), image, parity, writer)?;
    let tree = came.tree;
    let all = bad.is_whole(came.all, repair.write);
    Ok(ParityOutcome {
        tree: tree && repair.write,
        all,
    })
}
