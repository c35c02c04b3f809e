//! Blocks by height and index, and the parameters of a repair.
ghost use Rattle.std.specs.Prelude.{◌≡◌, ◌≤◌, ◌^◌};
ghost use Rattle.tree_shape.specs.Shape.{levels};
ghost use Rattle.tree_path.specs.Unused.{digests_in};
ghost use Rattle.tree_repair.specs.Runs.{size_at};

use std::alloc::Global;
use tree_shape::{Digest, Salt, Shape};

/// The size of a visit's buffer in bytes: a block, and one of each height below it.
pub(crate) const ROOM: usize = 65536;

/// The allocator, the tree, the sector at which hash blocks begin on a copy, whether the repair may write, and whether there is
/// parity.
#[derive(Drop)]
pub(crate) struct Repair {
    pub(crate) alloc: Global,
    pub(crate) shape: Shape,
    pub(crate) salt: Salt,
    pub(crate) root: Digest,
    pub(crate) copy_first: u64,
    pub(crate) write: bool,
    pub(crate) parity: bool,
}

/// A block. A data block has height 0, a hash block of level l height l + 1. Its index is that of the first data block below
/// it.
#[derive(Clone, Copy)]
pub(crate) struct Place {
    pub(crate) height: u32,
    pub(crate) index: u64,
}

/// The blocks of a height whose digests are in one hash block: one every `step` data blocks, from `first` on and before `end`.
#[derive(Clone, Copy)]
pub(crate) struct Row {
    pub(crate) height: u32,
    pub(crate) first: u64,
    pub(crate) end: u64,
    pub(crate) step: u64,
}

/// Returns the size of a block of that height in bytes.
pub(crate) fn block_size(shape: &Shape, height: u32) -> usize
    ensures { result ≡ size_at shape.now height }
{
    if height == 0 {
        return shape.data_block() as usize;
    }
    shape.hash_block() as usize
}

/// Returns how many blocks of that height there are.
pub(crate) fn count_at(shape: &Shape, height: u32) -> u64
    requires { height ≤ levels shape.now }
    ensures value { result ≡ digests_in shape.now height }
    ensures small { result ≤ 2 ^ 54 }
{
    let blocks = shape.blocks();
    if height == 0 {
        return blocks;
    }
    shape.level_blocks(height - 1)
}
