//! What the last hash blocks of the levels hold after their last used entries.
ghost use Rattle.std.specs.Prelude.{◌≡◌, ◌*◌, ◌/◌, ◌<◌, ◌≤◌, IfOk, OnErr};
ghost use Rattle.allocation.specs.Refusal.{IsOutOfMemory};
ghost use Rattle.tree_shape.specs.Shape.{levels};
ghost use Rattle.verity_format.specs.Image.{tree_sectors};
ghost use Rattle.tree_path.specs.Path.{largest_block};
ghost use Rattle.tree_path.specs.Steps.{HasReadAtMost};
ghost use Rattle.tree_survey.specs.Failing.{IsReadOver};
ghost use Rattle.tree_survey.specs.Hashes.{tree_of_path};
ghost use Rattle.tree_survey.specs.Passes.{tree_under};
ghost use Rattle.tree_survey.specs.Unused.{AreZeroFrom, IsReadDown, IsUnusedReadBy, found_from};

use crate::path::{Descent, descend};
use allocation::OutOfMemory;
use block_device::BlockDev;
use std::alloc::Global;
use tree_path::TreePath;
use tree_shape::Digest;
use verity_format::VerityTree;

/// What the last hash blocks of the levels hold after their last used entries. These are the hash blocks on the path to the
/// last data block.
#[derive(Clone, Copy, Debug, PartialEq, Eq)]
pub enum Unused {
    /// All of them verify, and hold zeros there.
    Zero,
    /// Some verify and hold zeros there; the next doesn't verify or can't be read.
    Unknown,
    /// One that verifies holds something else there: the digests of a longer image.
    Nonzero,
}

/// Reads the hash blocks on the path to the last data block, from the top down as long as they verify under the root. Returns
/// what they hold after their last used entries.
///
/// In a tree that was formatted with this shape they hold zeros there. A block that doesn't verify says nothing about the
/// image that was formatted, nor do the blocks below it.
///
/// # Errors
///
/// `OutOfMemory` if the allocator refused memory for a hash block of each level; nothing was read.
pub fn read_unused<H: BlockDev>(
    alloc: Global,
    hash_dev: &mut H,
    tree: &VerityTree,
    root: &Digest,
) -> Result<Unused, OutOfMemory>
    requires { tree_sectors tree.now.shape ≤ (H.state hash_dev.old).size }
    ensures ok { IfOk result (IsUnusedReadBy H.state (tree_under tree.now root.now) hash_dev.old hash_dev.new) }
    ensures err { OnErr result (H.state hash_dev.new ≡ H.state hash_dev.old) }
    ensures memory { OnErr result (IsOutOfMemory largest_block) }
{
    let mut path = TreePath::new(alloc, tree.shape, tree.salt, *root)?;
    let last = tree.shape.blocks() - 1;
    let good = read_down(&mut path, hash_dev, last);
    let zeros = are_zero_from(&path, last, good);
    Ok(found_from(zeros, good))
}

// The result for hash blocks that verify from level `good` up.
fn found_from(zeros: bool, good: u32) -> Unused
    ensures { result ≡ found_from zeros good }
{
    if !zeros {
        return Unused::Nonzero;
    }
    if good > 0 {
        return Unused::Unknown;
    }
    Unused::Zero
}

// Reads the hash blocks on the path to a data block from the top down, and returns the level from which up they verify.
fn read_down<H: BlockDev>(path: &mut TreePath, device: &mut H, index: u64) -> u32
    requires inside { index < path.old.shape.blocks }
    requires fits { tree_sectors path.old.shape ≤ (H.state device.old).size }
    ensures over { IsReadOver (H.state device.old) (H.state device.new) }
    ensures asked { HasReadAtMost (H.state device.old) (levels path.old.shape * (path.old.shape.hash_block / 512)) (H.state device.new) }
    ensures down { IsReadDown (tree_of_path path.old) (H.state device.old) (H.state device.new) index result path.new }
{
    let levels = path.levels();
    match descend(path, device, index, levels) {
        Descent::All => 0,
        Descent::Bad(level) => level + 1,
        Descent::Unread(level) => level + 1,
    }
}

// Whether the hash blocks of a path from level `good` up are zero after their last used entries.
fn are_zero_from(path: &TreePath, index: u64, good: u32) -> bool
    requires { index < path.now.shape.blocks }
    ensures { AreZeroFrom path.now index good result }
{
    'levels: for level in good..path.levels() {
        if !path.is_unused_zero(level, index) {
            return false;
        }
    }
    true
}
