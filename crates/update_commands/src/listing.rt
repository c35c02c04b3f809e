//! The data blocks of an image and of its copies, listed before the superblock is cleared.
ghost use Rattle.std.specs.Prelude.{map};
ghost use Rattle.verity_format.specs.Blocks.{IsOnlyRead};
ghost use Rattle.update_commands.specs.Listings.{AreEachOnlyRead, ListsBlocks};

use allocation::push;
use block_device::BlockDev;
use image_pin::{Pin, find_tree};
use std::alloc::Global;
use tree_repair::{BlockLists, ListedBlocks, list_blocks};
use verity_format::Superblock;

/// Lists the data blocks of the image that is updated and of each copy but the last, which is the release. With `no_index` nothing is
/// listed.
pub(crate) fn list_all<H: BlockDev, C: BlockDev>(
    alloc: Global,
    no_index: bool,
    hash_dev: &mut H,
    hash_copies: &mut Vec<C>,
    release: &Superblock,
) -> BlockLists
    ensures { ListsBlocks no_index (H.state hash_dev.old) (H.state hash_dev.new) (map C.state hash_copies.old.items) (map C.state hash_copies.new.items) }
{
    if no_index {
        return BlockLists {
            own: None,
            copies: Vec::new(alloc),
        };
    }
    let own = list_old(alloc, hash_dev, release);
    let copies = list_copies(alloc, hash_copies, release);
    BlockLists { own, copies }
}

// Lists the data blocks of each copy but the last.
fn list_copies<C: BlockDev>(
    alloc: Global,
    hash_copies: &mut Vec<C>,
    release: &Superblock,
) -> Vec<Option<ListedBlocks>>
    ensures { AreEachOnlyRead (map C.state hash_copies.old.items) (map C.state hash_copies.new.items) }
{
    list_seeds(alloc, hash_copies.as_mut_slice(), release)
}

// Lists the data blocks of each of a slice of copies but the last. Without the memory for it the others aren't listed.
fn list_seeds<C: BlockDev>(
    alloc: Global,
    hash_copies: &mut [C],
    release: &Superblock,
) -> Vec<Option<ListedBlocks>>
    ensures { AreEachOnlyRead (map C.state hash_copies.old) (map C.state hash_copies.new) }
{
    let mut lists = Vec::new(alloc);
    let seeds = hash_copies.len().saturating_sub(1);
    'seeds: for k in 0..seeds {
        let listed = list_old(alloc, &mut hash_copies[k], release);
        if !is_added(&mut lists, listed) {
            return lists;
        }
    }
    lists
}

// Appends a list, and returns whether there was memory for it.
fn is_added(lists: &mut Vec<Option<ListedBlocks>>, listed: Option<ListedBlocks>) -> bool {
    match push(lists, listed) {
        Ok(()) => true,
        Err(_) => false,
    }
}

// Lists the data blocks of an image by its tree, which isn't verified. Returns `None` if there is no memory, if the image has no
// superblock, or if its digests aren't comparable with those of the release: the size of data blocks or the salt differs.
fn list_old<H: BlockDev>(
    alloc: Global,
    hash_dev: &mut H,
    release: &Superblock,
) -> Option<ListedBlocks>
    ensures { IsOnlyRead (H.state hash_dev.old) (H.state hash_dev.new) }
{
    let unpinned: Option<Pin> = None;
    match find_tree(hash_dev, 0, &unpinned) {
        Ok(old) => list_alike(alloc, hash_dev, &old, release),
        Err(_) => None,
    }
}

// Lists the blocks by the tree of that superblock, if its digests are comparable.
fn list_alike<H: BlockDev>(
    alloc: Global,
    hash_dev: &mut H,
    old: &Superblock,
    release: &Superblock,
) -> Option<ListedBlocks>
    ensures { IsOnlyRead (H.state hash_dev.old) (H.state hash_dev.new) }
{
    if old.data_block() != release.data_block() {
        return None;
    }
    let (found, wanted) = (old.salt(), release.salt());
    if found.bytes() != wanted.bytes() {
        return None;
    }
    let shape = old.shape();
    list_blocks(alloc, hash_dev, &shape)
}
