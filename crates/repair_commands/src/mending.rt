//! Repairs two devices from copies, and syncs them.
ghost use Rattle.std.specs.Prelude.{◌≤◌, ◌^◌, None, IfErr, IfOk};
ghost use Rattle.tree_repair.specs.Repairs.{IsAllowed};
ghost use Rattle.repair_commands.specs.Mends.{IsEndBehind, IsMendedInOnePass, IsMendingCut, IsRunCut, IsRunWhole, IsUnheard};

use crate::nowhere::Nowhere;
use crate::syncing::{end_of, sync_both};
use block_device::{BlockDev, SyncDev};
use program_io::Counted;
use std::alloc::Global;
use std::io::Write;
use tree_repair::{DamagedImage, Outcome, Plan, RepairFault, repair_image};

/// Repairs both devices, and syncs them whatever the result. Returns what is known of the image.
///
/// # Errors
///
/// - `TooSmall` if the data or the tree don't fit on their device, before anything is written.
/// - `Write` if the writer failed; the image is repaired to its end nevertheless.
/// - `Device` if a write or a sync failed.
/// - `NoMemory` if memory ran out.
///
/// A failed sync doesn't hide an earlier fault that ended the repair.
pub(crate) fn mend<D: SyncDev, H: SyncDev, C: BlockDev, W: Write>(
    alloc: Global,
    image: &mut DamagedImage<D, H, C>,
    plan: &Plan,
    writer: &mut Counted<W>,
) -> Result<Outcome, RepairFault>
    requires first { plan.now.copy_first ≤ 2 ^ 55 }
    requires allowed { IsAllowed plan.now.write image.old.world.data_dev image.old.world.hash_dev }
    ensures ok { IfOk result (IsMendedInOnePass W.contents plan.now image.old.world image.new.world writer.old writer.new) }
    ensures err { IfErr result (IsMendingCut W.contents plan.now None image.old.world image.new.world writer.old writer.new) }
{
    let ended = repair_through(alloc, image, plan, writer);
    let synced = sync_both(image, plan.write);
    end_of(ended, synced)
}

// Repairs the image to its end, even if the writer fails.
fn repair_through<D: BlockDev, H: BlockDev, C: BlockDev, W: Write>(
    alloc: Global,
    image: &mut DamagedImage<D, H, C>,
    plan: &Plan,
    writer: &mut Counted<W>,
) -> Result<Outcome, RepairFault>
    requires first { plan.now.copy_first ≤ 2 ^ 55 }
    requires allowed { IsAllowed plan.now.write image.old.world.data_dev image.old.world.hash_dev }
    ensures ok { IfOk result (IsRunWhole W.contents plan.now image.old.world image.new.world writer.old writer.new) }
    ensures err { IfErr result (IsRunCut W.contents plan.now None image.old.world image.new.world writer.old writer.new) }
{
    match repair_image(alloc, image, plan, writer) {
        Ok(outcome) => Ok(outcome),
        Err(fault) => Err(go_on(alloc, image, plan, fault)),
    }
}

// Returns what ended a repair. If the writer failed, the image is repaired again without a writer first.
fn go_on<D: BlockDev, H: BlockDev, C: BlockDev>(
    alloc: Global,
    image: &mut DamagedImage<D, H, C>,
    plan: &Plan,
    fault: RepairFault,
) -> RepairFault
    requires first { plan.now.copy_first ≤ 2 ^ 55 }
    requires allowed { IsAllowed plan.now.write image.old.world.data_dev image.old.world.hash_dev }
    ensures { IsEndBehind plan.now None fault image.old.world image.new.world result }
{
    match fault {
        RepairFault::Image(fault) => RepairFault::Image(fault),
        RepairFault::Write => repair_unheard(alloc, image, plan),
    }
}

// Repairs the image without a writer. The fault `Write` means that this completed.
fn repair_unheard<D: BlockDev, H: BlockDev, C: BlockDev>(
    alloc: Global,
    image: &mut DamagedImage<D, H, C>,
    plan: &Plan,
) -> RepairFault
    requires first { plan.now.copy_first ≤ 2 ^ 55 }
    requires allowed { IsAllowed plan.now.write image.old.world.data_dev image.old.world.hash_dev }
    ensures { IsUnheard plan.now None image.old.world image.new.world result }
{
    let mut nowhere = Counted::new(Nowhere);
    match repair_image(alloc, image, plan, &mut nowhere) {
        Ok(_outcome) => RepairFault::Write,
        Err(fault) => fault,
    }
}
