//! Copies data blocks that moved within the data image, and fetches runs of others.
ghost use Rattle.std.specs.Prelude.{◌≡◌, ◌≤◌, ◌^◌, IfErr, IfOk};
ghost use Rattle.tree_repair.specs.Repairs.{IsAllowed};
ghost use Rattle.update_commands.specs.Moving.{AreListedMoved, AreMovedSilently, FailsToMove, IsCutBy};

use block_device::BlockDev;
use program_io::Counted;
use repair_commands::Nowhere;
use std::alloc::Global;
use std::io::Write;
use tree_repair::{BlockLists, DamagedImage, Plan, RepairFault, move_blocks};

/// Repairs the tree of the image, copies the data blocks that moved, as far as blocks are listed, and fetches runs of those that are
/// still corrupt from the copies. Returns how many were copied by lists. Prints a line for each block that was written, and nothing for
/// a JSON object.
///
/// # Errors
///
/// Those of `move_blocks`.
pub(crate) fn move_listed<D: BlockDev, H: BlockDev, C: BlockDev, W: Write>(
    alloc: Global,
    image: &mut DamagedImage<D, H, C>,
    lists: &BlockLists,
    plan: &Plan,
    json: bool,
    writer: &mut Counted<W>,
) -> Result<u64, RepairFault>
    requires first { plan.now.copy_first ≤ 2 ^ 55 }
    requires allowed { IsAllowed plan.now.write image.old.world.data_dev image.old.world.hash_dev }
    ensures ok { IfOk result (AreListedMoved W.contents json plan.now image.old.world image.new.world writer.old writer.new) }
    ensures err { IfErr result (FailsToMove plan.now image.old.world image.new.world) }
    ensures told { IfErr result (IsCutBy json writer.new) }
{
    if json {
        return move_silently(alloc, image, lists, plan);
    }
    move_blocks(alloc, image, lists, plan, writer)
}

/// Does what `move_listed` does, and prints nothing.
///
/// # Errors
///
/// Those of `move_blocks`.
pub(crate) fn move_silently<D: BlockDev, H: BlockDev, C: BlockDev>(
    alloc: Global,
    image: &mut DamagedImage<D, H, C>,
    lists: &BlockLists,
    plan: &Plan,
) -> Result<u64, RepairFault>
    requires first { plan.now.copy_first ≤ 2 ^ 55 }
    requires allowed { IsAllowed plan.now.write image.old.world.data_dev image.old.world.hash_dev }
    ensures ok { IfOk result (AreMovedSilently plan.now image.old.world image.new.world) }
    ensures err { IfErr result (FailsToMove plan.now image.old.world image.new.world) }
{
    let mut nowhere = Counted::new(Nowhere);
    move_blocks(alloc, image, lists, plan, &mut nowhere)
}
