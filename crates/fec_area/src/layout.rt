//! The blocks that parity covers, and the layout of codewords across them.
ghost use Rattle.std.specs.Prelude.{◌≡◌, ◌≢◌, ◌<◌, ◌≤◌, ◌^◌, IfNone, IfSome, IsTrue};
ghost use Rattle.fec_area.specs.Layouts.{IsLaidOn, IsLayout, IsLayoutOf, IsOfData, IsOfHash, IsOffHash, covered_blocks, parity_sectors, round_bytes, code_rounds};

use block_device::BlockDev;
use tree_shape::Shape;

/// The layout of parity. It covers the data blocks, followed by consecutive blocks of the hash device.
#[derive(Clone, Copy, Debug, PartialEq, Eq)]
pub struct Layout {
    /// The size of a block in bytes: 512, 1024, 2048 or 4096.
    pub block: u32,
    /// The number of data blocks.
    pub data_blocks: u64,
    /// The first block of the hash device that is covered.
    pub hash_first: u64,
    /// The number of covered blocks of the hash device.
    pub hash_blocks: u64,
    /// The number of parity bytes in a codeword, 2 to 24.
    pub roots: usize,
}

impl Layout {
    /// Returns the layout of an image with a tree of that shape, on a hash device of `hash_sectors` sectors of 512
    /// bytes, or `None` if data and hash blocks have different sizes. All blocks of the hash device from the first
    /// block of the tree on are covered.
    pub fn of(shape: &Shape, hash_sectors: u64, roots: usize) -> Option<Layout>
        requires some { 2 ≤ roots }
        requires few { roots ≤ 24 }
        requires small { hash_sectors ≤ 2 ^ 54 }
        ensures some { IfSome result (IsLayoutOf shape.now hash_sectors roots) }
        ensures valid { IfSome result IsLayout }
        ensures none { IfNone result (shape.now.data_block ≢ shape.now.hash_block) }
    {
        let block = shape.hash_block();
        if shape.data_block() != block {
            return None;
        }
        let all = hash_sectors / u64::from(block / 512);
        let hash_first = shape.start().min(all);
        Some(Layout {
            block,
            data_blocks: shape.blocks(),
            hash_first,
            hash_blocks: all - hash_first,
            roots,
        })
    }

    /// Returns whether the covered blocks are within the two devices.
    pub fn is_laid_on<D: BlockDev, H: BlockDev>(&self, data_dev: &D, hash_dev: &H) -> bool
        requires { IsLayout self.now }
        ensures laid { IsTrue result → IsLaidOn self.now (D.state data_dev.now) (H.state hash_dev.now) }
        ensures told { IsLaidOn self.now (D.state data_dev.now) (H.state hash_dev.now) → IsTrue result }
    {
        let sectors = u64::from(self.block / 512);
        let data = self.data_blocks * sectors;
        let end = self.hash_first + self.hash_blocks;
        let hash = end * sectors;
        if data > data_dev.sectors() {
            return false;
        }
        hash <= hash_dev.sectors()
    }

    /// Returns the number of covered blocks.
    pub fn covered_blocks(&self) -> u64
        requires { IsLayout self.now }
        ensures value { result ≡ covered_blocks self.now }
        ensures small { result ≤ 2 ^ 55 }
    {
        self.data_blocks + self.hash_blocks
    }

    /// Returns the index of a data block among the covered blocks, or `None` if there is no such data block.
    pub fn covered_data(&self, number: u64) -> Option<u64>
        ensures some { IfSome result (IsOfData self.now number) }
        ensures none { IfNone result (self.now.data_blocks ≤ number) }
    {
        if number < self.data_blocks {
            return Some(number);
        }
        None
    }

    /// Returns the index, among the covered blocks, of a block of the hash device, which is numbered from the
    /// beginning of the device, or `None` if it isn't covered.
    pub fn covered_hash(&self, number: u64) -> Option<u64>
        requires { IsLayout self.now }
        ensures some { IfSome result (IsOfHash self.now number) }
        ensures none { IfNone result (IsOffHash self.now number) }
    {
        if number < self.hash_first {
            return None;
        }
        let behind = number - self.hash_first;
        if behind < self.hash_blocks {
            return Some(self.data_blocks + behind);
        }
        None
    }

    /// Returns the number of rounds. A round has as many codewords as a block has bytes.
    pub fn rounds(&self) -> u64
        requires { IsLayout self.now }
        ensures value { result ≡ code_rounds self.now }
        ensures small { result < 2 ^ 56 }
    {
        self.covered_blocks().div_ceil(255 - self.roots as u64)
    }

    /// Returns the size of the parity of a round in bytes.
    pub fn round_bytes(&self) -> usize
        requires { IsLayout self.now }
        ensures value { result ≡ round_bytes self.now }
        ensures small { result ≤ 2 ^ 17 }
    {
        self.roots * self.block as usize
    }

    /// Returns the size of the parity in sectors of 512 bytes.
    pub fn parity_sectors(&self) -> u64
        requires { IsLayout self.now }
        ensures { result ≡ parity_sectors self.now }
    {
        self.rounds() * (self.roots as u64 * u64::from(self.block / 512))
    }
}
