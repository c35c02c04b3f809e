//! The places of data blocks by their digests.
ghost use Rattle.std.specs.Prelude.{◌≡◌, ◌≤◌, ◌+◌, IfErr, IfSome, OnErr};
ghost use Rattle.allocation.specs.Asked.{WasRefused};

use allocation::{OutOfMemory, push, with_capacity};
use std::alloc::Global;
use tree_shape::Digest;

/// Data blocks, listed by the first 8 bytes of their digests: 16 bytes a block. An entry is a hint, since nothing is known of what
/// the block holds.
#[derive(Drop)]
pub struct ListedBlocks {
    keys: Vec<u128>,
}

impl ListedBlocks {
    /// Returns a list without blocks, with room for so many.
    ///
    /// # Errors
    ///
    /// `OutOfMemory` if the allocator refused the memory.
    pub fn with_room(alloc: Global, blocks: usize) -> Result<ListedBlocks, OutOfMemory>
        ensures { IfErr result (WasRefused blocks) }
    {
        let keys = with_capacity(alloc, blocks)?;
        Ok(ListedBlocks { keys })
    }

    /// Adds a block and its digest. `sort` has to be called after the last one.
    ///
    /// # Errors
    ///
    /// `OutOfMemory` if the allocator refused memory for the block.
    pub fn add(&mut self, digest: &Digest, block: u64) -> Result<(), OutOfMemory>
        ensures same { OnErr result (self.new.keys.items ≡ self.old.keys.items) }
        ensures err { IfErr result (WasRefused 1) }
    {
        let key = key_of(digest, block);
        push(&mut self.keys, key)
    }

    /// Orders the blocks, for the searches.
    pub fn sort(&mut self) {
        self.keys.sort_unstable();
    }

    /// Returns from where a block is copied: the nearest block that is listed with the digest, if it is before the block and
    /// `upwards` is set, or if it is after it and `upwards` isn't. There is none for a block that is listed with the digest itself.
    pub(crate) fn source(&self, digest: &Digest, block: u64, upwards: bool) -> Option<u64> {
        match self.nearest(digest, block) {
            Some(source) => if_towards(source, block, upwards),
            None => None,
        }
    }

    /// Returns the nearest block that is listed with the digest. There is none for a block that is listed with the digest itself.
    pub(crate) fn elsewhere(&self, digest: &Digest, block: u64) -> Option<u64> {
        match self.nearest(digest, block) {
            Some(source) => if_apart(source, block),
            None => None,
        }
    }

    // Returns the nearest block that is listed with the digest, or the block itself if it is listed so.
    fn nearest(&self, digest: &Digest, block: u64) -> Option<u64> {
        let key = key_of(digest, block);
        let first = key - u128::from(block);
        let keys = self.keys.as_slice();
        let count = keys.partition_point(|listed| *listed < key);
        let after = listed_at(keys, count, first);
        let before = listed_before(keys, count, first);
        nearer(before, after, block)
    }
}

// Returns the nearer one of the blocks before and after a block.
fn nearer(before: Option<u64>, after: Option<u64>, block: u64) -> Option<u64> {
    match before {
        None => after,
        Some(low) => match after {
            None => Some(low),
            Some(high) => {
                if block.saturating_sub(low) <= high.saturating_sub(block) {
                    Some(low)
                } else {
                    Some(high)
                }
            }
        },
    }
}

// Returns the source if the block moves in that direction.
fn if_towards(source: u64, block: u64, upwards: bool) -> Option<u64> {
    if upwards && source < block {
        return Some(source);
    }
    if !upwards && source > block {
        return Some(source);
    }
    None
}

// Returns the source if it isn't the block.
fn if_apart(source: u64, block: u64) -> Option<u64> {
    if source == block {
        return None;
    }
    Some(source)
}

// Returns the key of a block: 8 bytes of its digest as a number, times 2^64, and the block's number.
fn key_of(digest: &Digest, block: u64) -> u128
    ensures { block ≤ result }
{
    let mut front = [0; 8];
    front.copy_from_slice(&digest.as_bytes()[..8]);
    u128::from(u64::from_le_bytes(front)) * 18_446_744_073_709_551_616 + u128::from(block)
}

// Returns the block of key k, if its digest is that of the key `first` of block 0.
fn listed_at(keys: &[u128], k: usize, first: u128) -> Option<u64> {
    match keys.get(k) {
        Some(key) => block_of(*key, first),
        None => None,
    }
}

// Returns the block of the key before key k.
fn listed_before(keys: &[u128], k: usize, first: u128) -> Option<u64> {
    if k == 0 {
        return None;
    }
    listed_at(keys, k - 1, first)
}

fn block_of(key: u128, first: u128) -> Option<u64>
    ensures { IfSome result (λ block. key ≡ first + block) }
{
    if key < first {
        return None;
    }
    let block = key - first;
    if block > u128::from(u64::MAX) {
        return None;
    }
    Some(block as u64)
}
