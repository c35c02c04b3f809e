//! Lists data blocks by their digests.
ghost use Rattle.std.specs.Prelude.{◌≤◌};
ghost use Rattle.verity_format.specs.Blocks.{IsOnlyRead};
ghost use Rattle.verity_format.specs.Image.{tree_sectors};

use crate::listed::ListedBlocks;
use crate::remaking::read_hash;
use allocation::{OutOfMemory, zeros};
use block_device::BlockDev;
use std::alloc::Global;
use tree_shape::{Digest, Shape, digest_in};
use verity_format::tree_sectors;

/// Lists the data blocks of an image by the lowest level of its tree, which isn't verified. If a hash block can't be read, those
/// after it are left out. Returns `None` if the device is smaller than the tree, or if there is no memory: 16 bytes for each block.
pub fn list_blocks<H: BlockDev>(
    alloc: Global,
    hash_dev: &mut H,
    shape: &Shape,
) -> Option<ListedBlocks>
    ensures { IsOnlyRead (H.state hash_dev.old) (H.state hash_dev.new) }
{
    let size = hash_dev.sectors();
    let needed = tree_sectors(shape);
    if size < needed {
        return None;
    }
    match ListedBlocks::with_room(alloc, shape.blocks() as usize) {
        Ok(listed) => filled(alloc, hash_dev, shape, listed),
        Err(_) => None,
    }
}

// Returns the list with the blocks of the tree.
fn filled<H: BlockDev>(
    alloc: Global,
    hash_dev: &mut H,
    shape: &Shape,
    listed: ListedBlocks,
) -> Option<ListedBlocks>
    requires { tree_sectors shape.now ≤ (H.state hash_dev.old).size }
    ensures { IsOnlyRead (H.state hash_dev.old) (H.state hash_dev.new) }
{
    let mut list = listed;
    match add_level(alloc, hash_dev, shape, &mut list) {
        Ok(()) => {
            list.sort();
            Some(list)
        }
        Err(_) => None,
    }
}

// Adds the blocks whose digests are in the lowest level, up to the first hash block that can't be read.
fn add_level<H: BlockDev>(
    alloc: Global,
    hash_dev: &mut H,
    shape: &Shape,
    listed: &mut ListedBlocks,
) -> Result<(), OutOfMemory>
    requires { tree_sectors shape.now ≤ (H.state hash_dev.old).size }
    ensures { IsOnlyRead (H.state hash_dev.old) (H.state hash_dev.new) }
{
    let levels = shape.levels();
    if levels == 0 {
        return Ok(());
    }
    let size = shape.hash_block();
    let mut room = zeros(alloc, size as usize)?;
    let block = room.as_mut_slice();
    let blocks = shape.blocks();
    let mut first = 0;
    'rows: for number in 0..shape.level_blocks(0) {
        if !read_hash(shape, 0, number, hash_dev, block) {
            return Ok(());
        }
        add_row(listed, block, first, blocks)?;
        first = first.saturating_add(shape.per_block());
    }
    Ok(())
}

// Adds the blocks whose digests are in a hash block, from one on.
fn add_row(
    listed: &mut ListedBlocks,
    block: &[u8],
    first: u64,
    blocks: u64,
) -> Result<(), OutOfMemory> {
    let slots = (block.len() / Digest::SIZE) as u64;
    'slots: for slot in 0..slots {
        let index = first.saturating_add(slot);
        if index >= blocks {
            return Ok(());
        }
        let digest = digest_in(block, slot);
        listed.add(&digest, index)?;
    }
    Ok(())
}
