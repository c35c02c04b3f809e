//! The cache.
ghost use Rattle.std.specs.Prelude.{◌≡◌, ◌⊎◌, [], length, option_map, Ok, OnOk, OnErr, IsOk, IsSome};
ghost use Rattle.std.specs.Option.{option_copied};
ghost use Rattle.std.specs.Borrow.{sem};
ghost use Rattle.verified_cache.specs.Cache.{IsCache, cached_at, block_under, cache_after_find, cache_after_keep, cache_without, cache_without_line, cache_after_moves};

use crate::keys::KeysOfLine;
use crate::slots::{DigestedBlock, slots_or_new};
use crate::{Key, Keys};
use lru::LruCache;
use std::alloc::{AllocError, Global};
use std::marker::Model;
use std::num::NonZeroUsize;
use tree_shape::Digest;

/// A cache of at most `capacity` verified blocks, each with its key and digest. The least recently used block is
/// dropped first.
#[derive(Drop)]
pub struct BlockCache {
    alloc: Global,
    capacity: u32,
    // `None` until a block is stored, so that an empty cache needs no memory.
    slots: Option<LruCache<Key, DigestedBlock>>,
}

impl Model for BlockCache {
    ghost use Rattle.std.specs.Prelude.{◌≡◌, IfSome};
    ghost use Rattle.verified_cache.specs.Cache.{CacheRecord, IsCache};

    ghost Value = { CacheRecord };

    ghost use Rattle.verified_cache.specs.Slots.{cache_of};

    ghost view = { cache_of };

    ghost invariant = { λ c. IfSome c.slots (λ slots. slots.cap ≡ c.capacity) × IsCache (cache_of c) };
}

impl BlockCache {
    ghost use Rattle.verified_cache.specs.Lending.{EndsAs};

    /// Returns an empty cache of at most `capacity` blocks. It allocates nothing until a block is stored.
    pub fn empty(alloc: Global, capacity: u32) -> BlockCache
        ensures { result ≡ record { capacity = capacity; blocks = [] } }
    {
        BlockCache {
            alloc,
            capacity,
            slots: None,
        }
    }

    /// Returns an empty cache of at most `capacity` blocks, as `empty` does. It never fails.
    pub fn new(alloc: Global, capacity: u32) -> Result<BlockCache, AllocError>
        ensures { result ≡ Ok (record { capacity = capacity; blocks = [] }) }
    {
        Ok(BlockCache::empty(alloc, capacity))
    }

    /// Returns the bytes of the block under `key` if it has this digest, and makes it the most recently used block.
    /// Returns `None` if there is no such block.
    pub fn find(&mut self, key: Key, digest: &Digest) -> Option<&[u8]>
        ensures* leaves { sem 𝓛 (EndsAs self.entry (cache_after_find key digest.now self.old)) }
        ensures answer { option_copied result ≡ option_map (λ b. b.bytes) (block_under key digest.now self.old) }
    {
        let Some(slots) = &mut self.slots else {
            return None;
        };
        let kept = slots.peek(&key)?;
        if kept.digest != *digest {
            return None;
        }
        let kept = slots.get(&key)?;
        Some(kept.bytes.as_slice())
    }

    /// Stores a block under its key as the most recently used, in place of the block under that key. If there are
    /// more blocks than the capacity, the least recently used is dropped.
    ///
    /// # Errors
    ///
    /// `AllocError` if an allocation fails; the cache is unchanged. It doesn't fail if there is a block under the
    /// key, or if the capacity is 0.
    pub fn keep(&mut self, key: Key, digest: Digest, block: Vec<u8>) -> Result<(), AllocError>
        ensures ok { OnOk result (self.new ≡ cache_after_keep (record { key = key; digest = digest; bytes = block.items }) self.old) }
        ensures err { OnErr result (self.new ≡ self.old) }
        ensures succeeds { (self.old.capacity ≡ 0) ⊎ IsSome (cached_at key self.old) → IsOk result }
    {
        let Some(most) = NonZeroUsize::new(self.capacity as usize) else {
            return Ok(());
        };
        let block = DigestedBlock {
            digest,
            bytes: block,
        };
        let mut slots = slots_or_new(self.alloc, self.slots.take(), most)?;
        let outcome = slots.put(key, block);
        self.slots = Some(slots);
        outcome?;
        Ok(())
    }

    /// Drops the blocks of one line of one device.
    pub fn forget_line(&mut self, device: u32, line: u32)
        ensures { self.new ≡ cache_without_line device line self.old }
    {
        self.forget_where(&KeysOfLine { device, line });
    }

    /// Drops the blocks with keys in `keys`. It checks each block once.
    pub fn forget_where<K: Keys>(&mut self, keys: &K)
        requires { K.can_tell keys.now }
        ensures { self.new ≡ cache_without (K.has keys.now) self.old }
    {
        for _ in 0..self.len() {
            self.move_oldest(keys);
        }
    }

    /// Removes the least recently used block and, unless its key is in `keys`, makes it the most recently used.
    fn move_oldest<K: Keys>(&mut self, keys: &K)
        requires { K.can_tell keys.now }
        ensures { self.new ≡ cache_after_moves (K.has keys.now) 1 self.old }
    {
        let Some(slots) = &mut self.slots else {
            return;
        };
        let Some((key, _)) = slots.peek_lru() else {
            return;
        };
        let key = *key;
        if keys.has(key) {
            drop(slots.pop_lru());
        } else {
            slots.promote(&key);
        }
    }

    /// Drops all blocks.
    pub fn forget_all(&mut self)
        ensures { self.new ≡ record self.old { blocks = [] } }
    {
        self.slots = None;
    }

    /// Returns the number of blocks in the cache.
    pub fn len(&self) -> usize
        ensures value { result ≡ length self.now.blocks }
        ensures valid { IsCache self.now }
    {
        match &self.slots {
            None => 0,
            Some(slots) => slots.len(),
        }
    }

    /// Returns the largest number of blocks that the cache holds.
    pub fn capacity(&self) -> u32
        ensures { result ≡ self.now.capacity }
    {
        self.capacity
    }
}
