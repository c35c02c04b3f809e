//! Writing a tree over a data image.
ghost use Rattle.std.specs.Prelude.{◌≡◌, IfErr, IfOk};
ghost use Rattle.std.specs.Result.{result_err};
ghost use Rattle.block_device.specs.Call.{DeviceDoes};
ghost use Rattle.verity_format.specs.Formatting.{room_refusal};
ghost use Rattle.verity_format.specs.Handing.{HandsTreeOver};
ghost use Rattle.verity_format.specs.Trees.{BuildsTree, FailsToBuildTree};
ghost use Rattle.verity_format.specs.Writing.{MovesTree};

use crate::access::{data_sectors, tree_sectors};
use crate::writing::write_tree;
use crate::{FormatFault, VerityTree};
use block_device::BlockDev;
use std::alloc::Global;
use tree_shape::{Digest, Shape};

/// Writes the tree over the data device to the hash device, from hash block `tree.shape.start()` on, and returns its
/// root hash.
///
/// The data device is read once, in runs, and never written. The tree is written level by level, with one block of
/// each level in memory. Nothing is synced.
///
/// # Errors
///
/// - `DataTooSmall`, `HashTooSmall` or `HashReadOnly`, the first that applies; neither device was accessed.
/// - `Device` if one of the two devices fails.
/// - `NoMemory` if an allocation fails.
pub fn make_tree<D: BlockDev, H: BlockDev>(
    alloc: Global,
    data_dev: &mut D,
    hash_dev: &mut H,
    tree: &VerityTree,
) -> Result<Digest, FormatFault>
    ensures devices { MovesTree D.state H.state tree.now.shape data_dev.old hash_dev.old data_dev.new hash_dev.new }
    ensures ok { IfOk result (BuildsTree D.state H.state tree.now data_dev.old hash_dev.old data_dev.new hash_dev.new) }
    ensures err { IfErr result (FailsToBuildTree D.state H.state tree.now data_dev.old hash_dev.old data_dev.new hash_dev.new) }
    // states all calls, whatever the devices do
    ensures handed { HandsTreeOver (DeviceDoes D.state D.does) (DeviceDoes H.state H.does) tree.now.shape tree.now.salt data_dev.old hash_dev.old data_dev.new hash_dev.new result }
{
    check_room(data_dev, hash_dev, &tree.shape, tree_sectors(&tree.shape))?;
    let root = write_tree(alloc, data_dev, hash_dev, &tree.shape, &tree.salt)?;
    Ok(root)
}

/// Checks the sizes of both devices and that the hash device is writable.
///
/// # Errors
///
/// The first that applies, in this order:
///
/// - `DataTooSmall` if the data device is smaller than the data blocks.
/// - `HashTooSmall` if the hash device has fewer than `needed` sectors.
/// - `HashReadOnly` if the hash device is read-only.
pub fn check_room<D: BlockDev, H: BlockDev>(
    data_dev: &D,
    hash_dev: &H,
    shape: &Shape,
    needed: u64,
) -> Result<(), FormatFault>
    ensures { result_err result ≡ room_refusal shape.now needed (D.state data_dev.now) (H.state hash_dev.now) }
{
    if data_dev.sectors() < data_sectors(shape) {
        return Err(FormatFault::DataTooSmall);
    }
    if hash_dev.sectors() < needed {
        return Err(FormatFault::HashTooSmall { needed });
    }
    if !hash_dev.writable() {
        return Err(FormatFault::HashReadOnly);
    }
    Ok(())
}
