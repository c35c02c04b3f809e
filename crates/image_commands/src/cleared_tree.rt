//! A tree without a superblock, made where a superblock of an earlier format may be.
ghost use Rattle.std.specs.Prelude.{◌≤◌, IfErr, IfOk, IsTrue, OnErr, OnOk, is_ok};
ghost use Rattle.block_device.specs.Call.{DeviceDoes};
ghost use Rattle.image_commands.specs.ClearedTrees.{FailsToMakeCleared, HandsCleared, HandsTreeClearing, IsTreeCleared, IsTreeUncleared, MakesCleared, OnlyTreeChanges};

use crate::clearing::clear_superblock;
use block_device::{BlockDev, DeviceFault, SyncDev};
use std::alloc::Global;
use tree_shape::Digest;
use verity_format::{FormatFault, Superblock, check_room, make_tree, tree_sectors};

/// Makes the tree at the beginning of a device, and returns its root hash. If no refusal applies and the first sector begins
/// as a superblock does, that sector is cleared and synced first. The tree isn't synced.
pub(crate) fn make_cleared<D: BlockDev, H: SyncDev>(
    alloc: Global,
    data_dev: &mut D,
    hash_dev: &mut H,
    params: &Superblock,
) -> Result<Digest, FormatFault>
    ensures devices { OnlyTreeChanges D.state H.state params.now data_dev.old hash_dev.old data_dev.new hash_dev.new }
    ensures ok { IfOk result (MakesCleared D.state H.state params.now data_dev.old hash_dev.old data_dev.new hash_dev.new) }
    ensures err { IfErr result (FailsToMakeCleared D.state H.state params.now data_dev.old hash_dev.old data_dev.new hash_dev.new) }
    ensures handed { HandsCleared D.state D.does H.state H.does params.now data_dev.old hash_dev.old data_dev.new hash_dev.new result }
{
    let tree = params.tree_alone();
    let sectors = tree_sectors(&tree.shape);
    check_room(data_dev, hash_dev, &tree.shape, sectors)?;
    clear_first(hash_dev, sectors)?;
    make_tree(alloc, data_dev, hash_dev, &tree)
}

// Clears an old superblock at the first of a tree's sectors, if the tree has one.
fn clear_first<H: SyncDev>(hash_dev: &mut H, sectors: u64) -> Result<(), DeviceFault>
    requires room { sectors ≤ (H.state hash_dev.old).size }
    requires allowed { IsTrue (H.state hash_dev.old).may_write }
    ensures ok { OnOk result (IsTreeCleared sectors (H.state hash_dev.old) (H.state hash_dev.new)) }
    ensures err { OnErr result (IsTreeUncleared sectors (H.state hash_dev.old) (H.state hash_dev.new)) }
    ensures handed { HandsTreeClearing sectors (DeviceDoes H.state H.does) hash_dev.old hash_dev.new (is_ok result) }
{
    if sectors == 0 {
        return Ok(());
    }
    clear_superblock(hash_dev)
}
