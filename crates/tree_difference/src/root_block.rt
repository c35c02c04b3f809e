//! The root hash block of a tree.
ghost use Rattle.std.specs.Prelude.{◌≤◌, OnOk, IfErr};
ghost use Rattle.verity_format.specs.Blocks.{IsOnlyRead};
ghost use Rattle.verity_format.specs.Image.{tree_sectors};
ghost use Rattle.tree_difference.specs.Causes.{IsFirstBlock};
ghost use Rattle.tree_difference.specs.RootBlocks.{ChecksRoot, FailsToCheckRoot};

use crate::fault::{DifferenceFault, Which};
use crate::reading::read_down;
use block_device::BlockDev;
use std::alloc::Global;
use tree_path::TreePath;
use tree_shape::Digest;
use verity_format::VerityTree;

/// Reads the root hash block of a tree, and checks it against the root hash. A tree of one data block has no hash block, and
/// nothing is read.
///
/// # Errors
///
/// - `Hash` if the block has another digest.
/// - `Image` if the device failed.
/// - `NoMemory` if an allocation was refused.
pub fn check_root_block<H: BlockDev>(
    alloc: Global,
    device: &mut H,
    which: Which,
    tree: &VerityTree,
    root: Digest,
) -> Result<(), DifferenceFault>
    requires { tree_sectors tree.now.shape ≤ (H.state device.old).size }
    ensures read { IsOnlyRead (H.state device.old) (H.state device.new) }
    ensures ok { OnOk result (ChecksRoot H.state device.old device.new tree.now root) }
    ensures err { IfErr result (FailsToCheckRoot H.state device.old device.new which tree.now root) }
    ensures first { IfErr result IsFirstBlock }
{
    let _blocks = tree.shape.blocks();
    let top = tree.shape.levels();
    let mut path = TreePath::new(alloc, tree.shape, tree.salt, root)?;
    read_down(&mut path, device, which, 0, top, top.saturating_sub(1))
}
