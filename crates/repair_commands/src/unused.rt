//! Checks, before anything is written, what an image's hash blocks hold after their last used entries.
ghost use Rattle.std.specs.Prelude.{IfErr, IfOk};
ghost use Rattle.verity_format.specs.Blocks.{IsOnlyRead};
ghost use Rattle.repair_commands.specs.Unused.{IsUnusedCause, IsUnusedPassed};

use block_device::BlockDev;
use std::alloc::Global;
use tree_shape::Digest;
use tree_survey::{SurveyFault, Unused, read_unused};
use verity_commands::TreeFault;
use verity_format::{VerifyFault, VerityTree, tree_sectors};

/// Returns whether all hash blocks on the path to the last data block verify, and hold zeros after their last used entries. If
/// the tree doesn't fit on the device, nothing of it is read: the repair refuses such an image.
///
/// # Errors
///
/// - `UnusedEntries` if a hash block that verifies holds something else: the tree has fewer data blocks than the image that was
///   formatted.
/// - `NoMemory` if an allocation of at most 4,096 elements was refused; nothing was read.
pub(crate) fn check_unused<'a, H: BlockDev>(
    alloc: Global,
    hash_dev: &mut H,
    tree: &VerityTree,
    root: &Digest,
) -> Result<bool, TreeFault<'a>>
    ensures read { IsOnlyRead (H.state hash_dev.old) (H.state hash_dev.new) }
    ensures ok { IfOk result (IsUnusedPassed tree.now root.now (H.state hash_dev.old) (H.state hash_dev.new)) }
    ensures err { IfErr result (IsUnusedCause tree.now root.now (H.state hash_dev.old) (H.state hash_dev.new)) }
{
    let needed = tree_sectors(&tree.shape);
    if hash_dev.sectors() < needed {
        return Ok(false);
    }
    let Ok(found) = read_unused(alloc, hash_dev, tree, root) else {
        return Err(TreeFault::Survey(SurveyFault::Image(VerifyFault::NoMemory)));
    };
    match found {
        Unused::Zero => Ok(true),
        Unused::Unknown => Ok(false),
        Unused::Nonzero => Err(TreeFault::UnusedEntries),
    }
}
