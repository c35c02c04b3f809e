//! A verity image whose data blocks are verified as they are read.
ghost use Rattle.std.specs.Prelude.{◌≡◌, IfErr, IfOk};
ghost use Rattle.verity_format.specs.Blocks.{BothOnlyRead, IsOnlyRead};
ghost use Rattle.volumes.specs.Images.{FailsToOpen, FailsToReadBlock, HasTree, IsVerified};

use block_device::BlockDev;
use hash_tree::Chain;
use std::alloc::Global;
use thiserror::Error;
use tree_shape::Digest;
use verity_format::{
    ChainFault, VerifyFault, VerityTree, data_sectors, read_chain, read_superblock, tree_sectors,
};

/// Why a data block isn't returned.
#[derive(Clone, Copy, Debug, PartialEq, Eq, Error)]
pub enum BlockFault {
    /// The image has no block of that number.
    #[error("the image has no block of that number")]
    OutOfRange,
    /// A device ends before the data or the tree.
    #[error("a device ends before the data or the tree")]
    TooSmall,
    /// The block, or a hash block above it, hasn't the digest that is stored above.
    #[error("the block fails verification")]
    Mismatch,
    /// One of the two devices failed in the call.
    #[error("a device failed")]
    Device,
    /// An allocation was refused.
    #[error("out of memory")]
    NoMemory,
}

/// The device of the data, the device of superblock and tree, the tree that the superblock describes, and the root hash
/// that is trusted.
#[derive(Drop)]
pub struct VerityImage<D, H> {
    pub data_dev: D,
    pub hash_dev: H,
    pub tree: VerityTree,
    pub root: Digest,
}

impl<D: BlockDev + Drop, H: BlockDev + Drop> VerityImage<D, H> {
    /// Opens the image with the superblock at the beginning of the hash device.
    ///
    /// # Errors
    ///
    /// - `Super` with the first wrong field of the superblock.
    /// - `TooSmall` if the hash device has no sector.
    /// - `Device` if the hash device failed.
    pub fn open(data_dev: D, hash_dev: H, root: Digest) -> Result<VerityImage<D, H>, VerifyFault>
        ensures kept { IfOk result (λ image. (image.data_dev ≡ data_dev) × (image.root ≡ root) × IsOnlyRead (H.state hash_dev) (H.state image.hash_dev)) }
        ensures tree { IfOk result (λ image. HasTree (H.state hash_dev) image.tree) }
        ensures err { IfErr result (FailsToOpen H.state hash_dev) }
    {
        let mut hash_dev = hash_dev;
        let superblock = read_superblock(&mut hash_dev)?;
        Ok(VerityImage {
            data_dev,
            hash_dev,
            tree: superblock.tree(),
            root,
        })
    }
}

impl<D: BlockDev, H: BlockDev> VerityImage<D, H> {
    /// Reads data block `index` and the hash blocks above it, and returns the block if they lead to it from the root hash.
    ///
    /// # Errors
    ///
    /// - `OutOfRange` if the tree has fewer blocks.
    /// - `TooSmall` if a device ends before the data or the tree.
    /// - `Mismatch` if a block hasn't the digest that is stored above.
    /// - `Device` if one of the devices failed.
    /// - `NoMemory` if an allocation of at most 65,536 elements was refused; neither device was accessed.
    pub fn read(&mut self, alloc: Global, index: u64) -> Result<Vec<u8>, BlockFault>
        ensures ok { IfOk result (λ bytes. IsVerified self.old.tree self.old.root index bytes.items) }
        ensures devices { BothOnlyRead D.state H.state self.old.data_dev self.old.hash_dev self.new.data_dev self.new.hash_dev }
        ensures err { IfErr result (FailsToReadBlock D.state H.state self.old self.new index) }
        ensures same { (self.new.tree ≡ self.old.tree) × (self.new.root ≡ self.old.root) }
    {
        let VerityTree { shape, salt } = self.tree;
        if index >= shape.blocks() {
            return Err(BlockFault::OutOfRange);
        }
        if data_sectors(&shape) > self.data_dev.sectors()
            || tree_sectors(&shape) > self.hash_dev.sectors()
        {
            return Err(BlockFault::TooSmall);
        }
        let chain = match read_chain(alloc, &mut self.data_dev, &mut self.hash_dev, &shape, index) {
            Ok(chain) => chain,
            Err(ChainFault::Device) => return Err(BlockFault::Device),
            Err(ChainFault::NoMemory) => return Err(BlockFault::NoMemory),
        };
        if !chain.holds(&shape, &salt, &self.root) {
            return Err(BlockFault::Mismatch);
        }
        Ok(content_of(chain))
    }
}

// The data block of a chain.
fn content_of(chain: Chain) -> Vec<u8>
    ensures { result.items ≡ chain.content }
{
    let Chain {
        index: _,
        content,
        path: _,
    } = chain;
    content
}
