//! The shape of a hash tree.
ghost use Rattle.std.specs.Prelude.{◌≡◌, ◌+◌, ◌*◌, ◌^◌, ◌<◌, ◌≤◌, IfOk};
ghost use Rattle.std.specs.Result.{result_err};
ghost use Rattle.tree_shape.specs.Shape.{IsShape, shape_with, first_fault, is_block_size, is_too_large, blocks_sectors, per_block, levels, level_blocks, position, slot, ancestor, area_blocks, area_end, end_of};

use crate::Digest;
use std::marker::Model;
use thiserror::Error;

/// Why a shape is invalid.
#[derive(Clone, Copy, Debug, PartialEq, Eq, Error)]
pub enum ShapeFault {
    /// A block size is not 512, 1024, 2048 or 4096.
    #[error("BlockSize")]
    BlockSize,
    /// There is no data block.
    #[error("NoBlocks")]
    NoBlocks,
    /// The data ends after 2^54 sectors, or the tree has a block and ends after 2^54 sectors.
    #[error("TooLarge")]
    TooLarge,
}

/// The shape of a tree: block sizes in bytes, the number of data blocks, and the hash block at which the tree begins.
#[derive(Clone, Copy)]
pub struct Shape {
    data_block: u32,
    hash_block: u32,
    blocks: u64,
    start: u64,
}

impl Model for Shape {
    ghost use Rattle.tree_shape.specs.Shape.{ShapeRecord, IsShape, shape_with};

    ghost Value = { ShapeRecord };

    ghost view = { λ s. shape_with s.data_block s.hash_block s.blocks s.start };

    ghost invariant = { λ s. IsShape (shape_with s.data_block s.hash_block s.blocks s.start) };

    ghost inverse = { λ s. record { data_block = s.data_block; hash_block = s.hash_block; blocks = s.blocks; start = s.start } };
}

impl Shape {
    /// Returns the shape with these fields. Block sizes are in bytes, `start` is in hash blocks.
    ///
    /// # Errors
    ///
    /// The first that applies, in this order:
    ///
    /// - `BlockSize` if a block size is not 512, 1024, 2048 or 4096.
    /// - `NoBlocks` if `blocks` is 0.
    /// - `TooLarge` if the data, or a tree that has a block, ends after 2^54 sectors.
    #[tactic(auto, unfolding(crate::specs::Shape::first_fault))]
    pub fn new(
        data_block: u32,
        hash_block: u32,
        blocks: u64,
        start: u64,
    ) -> Result<Shape, ShapeFault>
        ensures value { IfOk result (λ s. s ≡ shape_with data_block hash_block blocks start) }
        ensures valid { IfOk result (λ s. IsShape s) }
        ensures fault { result_err result ≡ first_fault (shape_with data_block hash_block blocks start) }
    {
        if !is_block_size(data_block) || !is_block_size(hash_block) {
            return Err(ShapeFault::BlockSize);
        }
        if blocks == 0 {
            return Err(ShapeFault::NoBlocks);
        }
        if is_too_large(u128::from(blocks), data_block) {
            return Err(ShapeFault::TooLarge);
        }
        let area = blocks_over(blocks, hash_block);
        if is_too_large(end_of(start, area), hash_block) {
            return Err(ShapeFault::TooLarge);
        }
        Ok(Shape {
            data_block,
            hash_block,
            blocks,
            start,
        })
    }

    /// Returns the size of a data block in bytes.
    pub fn data_block(&self) -> u32
        ensures value { result ≡ self.now.data_block }
        ensures valid { IsShape self.now }
    {
        self.data_block
    }

    /// Returns the size of a hash block in bytes.
    pub fn hash_block(&self) -> u32
        ensures value { result ≡ self.now.hash_block }
        ensures valid { IsShape self.now }
    {
        self.hash_block
    }

    /// Returns the number of data blocks.
    pub fn blocks(&self) -> u64
        ensures value { result ≡ self.now.blocks }
        ensures valid { IsShape self.now }
    {
        self.blocks
    }

    /// Returns the hash block at which the tree begins.
    pub fn start(&self) -> u64
        ensures value { result ≡ self.now.start }
        ensures valid { IsShape self.now }
    {
        self.start
    }

    /// Returns the number of digests in a hash block, at least 16.
    pub fn per_block(&self) -> u64
        ensures value { result ≡ per_block self.now }
        ensures many { 16 ≤ result }
        ensures valid { IsShape self.now }
    {
        u64::from(self.hash_block() / Digest::SIZE as u32)
    }

    /// Returns the number of levels of the tree, at most 14. The tree of a single data block has none.
    pub fn levels(&self) -> u32
        ensures value { result ≡ levels self.now }
        ensures few { result ≤ 14 }
    {
        let bits = self.slot_bits();
        let mut rest = self.blocks() - 1;
        let mut count = 0;
        while rest > 0 {
            rest >>= bits;
            count += 1;
        }
        count
    }

    /// Returns the number of hash blocks in a level. Levels count from the bottom: level 0 holds the digests of the
    /// data blocks, and level `levels() - 1` is a single block.
    pub fn level_blocks(&self, level: u32) -> u64
        requires { level < levels self.now }
        ensures value { result ≡ level_blocks self.now level }
        ensures some { 0 < result }
    {
        let last = self.blocks() - 1;
        self.ancestor(level + 1, last) + 1
    }

    /// Returns the binary logarithm of the number of slots in a hash block.
    fn slot_bits(&self) -> u32
        ensures value { 2 ^ result ≡ per_block self.now }
        ensures some { 4 ≤ result }
        ensures few { result ≤ 7 }
        ensures valid { IsShape self.now }
    {
        match self.hash_block() {
            512 => 4,
            1024 => 5,
            2048 => 6,
            _ => 7,
        }
    }

    /// Returns the index of the block that is `steps` levels above a data block. It is called for each block that is
    /// read, so it shifts instead of dividing.
    fn ancestor(&self, steps: u32, index: u64) -> u64
        ensures value { result ≡ ancestor self.now steps index }
        ensures valid { IsShape self.now }
    {
        let bits = self.slot_bits();
        if steps >= 16 {
            return 0;
        }
        let distance = bits * steps;
        if distance < u64::BITS {
            index >> distance
        } else {
            0
        }
    }

    /// Returns the index, within its level, of the hash block on the path to data block `index`.
    pub fn block_on_path(&self, level: u32, index: u64) -> u64
        requires { index < self.now.blocks }
        ensures value { result ≡ ancestor self.now (level + 1) index }
        ensures inside { result < level_blocks self.now level }
    {
        self.ancestor(level, index) >> self.slot_bits()
    }

    /// Returns the slot, in the hash block of `level` on the path to data block `index`, of the digest of the next
    /// block on that path.
    pub fn slot_on_path(&self, level: u32, index: u64) -> u64
        ensures value { result ≡ slot self.now (ancestor self.now level index) }
        ensures inside { 32 * result + 32 ≤ self.now.hash_block }
    {
        self.slot(self.ancestor(level, index))
    }

    /// Returns the position of block `index` of a level, in hash blocks from the beginning of the hash device.
    pub fn position(&self, level: u32, index: u64) -> u64
        requires level { level < levels self.now }
        requires index { index < level_blocks self.now level }
        ensures value { result ≡ position self.now level index }
        ensures inside { result < area_end self.now }
        ensures from { self.now.start ≤ result }
    {
        let above = blocks_over(self.level_blocks(level), self.hash_block());
        let start = self.start();
        start + above + index
    }

    /// Returns the slot of digest `index` of a level within its hash block.
    #[tactic(auto, unfolding(crate::specs::Shape::slot))]
    pub fn slot(&self, index: u64) -> u64
        ensures value { result ≡ slot self.now index }
        ensures inside { 32 * result + 32 ≤ self.now.hash_block }
    {
        index % (1 << self.slot_bits())
    }

    /// Returns the number of hash blocks in the whole tree.
    pub fn area_blocks(&self) -> u64
        ensures value { result ≡ area_blocks self.now }
        ensures fewer { result < self.now.blocks }
    {
        blocks_over(self.blocks(), self.hash_block())
    }

    /// Returns the hash block after the tree's last one, or 0 if the tree has no block.
    pub fn area_end(&self) -> u64
        ensures value { result ≡ area_end self.now }
        ensures few { result ≤ 2 ^ 54 }
    {
        let blocks = self.area_blocks();
        let start = self.start();
        if blocks == 0 { 0 } else { start + blocks }
    }
}

/// Returns whether `size` is a valid block size in bytes: 512, 1024, 2048 or 4096.
pub fn is_block_size(size: u32) -> bool
    ensures { result ≡ is_block_size size }
{
    size == 512 || size == 1024 || size == 2048 || size == 4096
}

/// Returns whether `blocks` blocks of `size` bytes take more than 2^54 sectors.
fn is_too_large(blocks: u128, size: u32) -> bool
    requires { blocks < 2 ^ 65 }
    ensures { result ≡ is_too_large (blocks_sectors blocks size) }
{
    blocks * u128::from(size / 512) > 1 << 54
}

/// Returns the block after the last one, or 0 if there are no blocks.
fn end_of(start: u64, blocks: u64) -> u128
    ensures value { result ≡ end_of start blocks }
    ensures small { result < 2 ^ 65 }
{
    if blocks == 0 {
        return 0;
    }
    u128::from(start) + u128::from(blocks)
}

/// Returns the number of hash blocks in a tree over `blocks` blocks.
fn blocks_over(blocks: u64, hash_block: u32) -> u64
    requires some { 0 < blocks }
    requires digests { 96 ≤ hash_block }
    ensures value { result ≡ area_blocks (shape_with 512 hash_block blocks 0) }
    ensures fewer { result < blocks }
{
    let per_block = u64::from(hash_block / Digest::SIZE as u32);
    let mut count = blocks;
    let mut sum = 0;
    while count > 1 {
        count = (count - 1) / per_block + 1;
        sum += count;
    }
    sum
}
