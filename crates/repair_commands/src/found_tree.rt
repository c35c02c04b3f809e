//! The tree of a hash image, found before anything is written.
ghost use Rattle.std.specs.Prelude.{IfErr, IfOk};
ghost use Rattle.verity_format.specs.Blocks.{IsOnlyRead};
ghost use Rattle.repair_commands.specs.FoundTrees.{FindsNoTree, FindsTree};

use crate::unused::check_unused;
use block_device::BlockDev;
use image_commands::{SoughtTree, seek_tree};
use std::alloc::Global;
use tree_shape::Digest;
use verity_commands::TreeFault;
use verity_format::VerityTree;

/// The tree that a superblock or options state, the root hash that it is repaired under, and whether all hash blocks on the path
/// to the last data block verify, and hold zeros after their last used entries.
#[derive(Clone, Copy)]
pub(crate) struct FoundTree {
    pub tree: VerityTree,
    pub root: Digest,
    pub whole: bool,
}

/// Returns the tree over so many sectors of data, of the hash image that begins at sector `first` of its file. A repair finds its
/// tree by this call alone, and reads a superblock once.
///
/// # Errors
///
/// Those of `seek_tree`, and then those of `check_unused`.
pub(crate) fn find_repaired_tree<'a, H: BlockDev>(
    alloc: Global,
    data_sectors: u64,
    hash_dev: &mut H,
    first: u64,
    sought: &SoughtTree,
) -> Result<FoundTree, TreeFault<'a>>
    ensures read { IsOnlyRead (H.state hash_dev.old) (H.state hash_dev.new) }
    ensures ok { IfOk result (FindsTree data_sectors (H.state hash_dev.old) first sought.now (H.state hash_dev.new)) }
    ensures err { IfErr result (FindsNoTree data_sectors (H.state hash_dev.old) first sought.now (H.state hash_dev.new)) }
{
    let tree = seek_tree(&sought.source, data_sectors, hash_dev, first)?;
    let whole = check_unused(alloc, hash_dev, &tree, &sought.root)?;
    Ok(FoundTree {
        tree,
        root: sought.root,
        whole,
    })
}
