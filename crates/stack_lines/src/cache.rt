//! The blocks that a stack keeps.
ghost use Rattle.std.specs.Prelude.{◌≡◌, ◌<◌, ◌≤◌, ◌||◌, ◌==◌, not, false, ℕ, length, option_map, None, IfOk, IfSome, IsTrue, OnOk, OnErr};
ghost use Rattle.stack_rules.specs.Records.{Configuration};
ghost use Rattle.stack_rules.specs.Rules.{IsLoaded, most_leaves};
ghost use Rattle.verified_cache.specs.Cache.{block_under, cache_after_find, cache_after_keep};
ghost use Rattle.stack_lines.specs.Standing.{has_leaf, stands_on, cache_without_leaf, IsPossibleLower, KnowsLeaves, AreLeafSets, CoversBlocks};
ghost use Rattle.stack_lines.specs.Caches.{IsFreshCache, IsUncopied, IsLastBlock, IsLastUncopied, capacity_of, last_after_keep};
ghost use Rattle.stack_lines.specs.Clear.{IsClear};

use crate::keys_on_leaf::KeysOnLeaf;
use crate::last_block::LastBlock;
use crate::leaf_set::LeafSet;
use crate::leaf_sets::{leaf_sets, lower_leaves};
use allocation::{OutOfMemory, copied};
use stack_config::{Config, Lower};
use std::alloc::{AllocError, Global};
use std::marker::Model;
use tree_shape::Digest;
use verified_cache::{BlockCache, Key};

/// Hash blocks of `verity` lines and one data block, each of which was checked before it was kept.
#[derive(Drop)]
pub struct Cache {
    blocks: BlockCache,
    // The data block that was read by itself last, if one is kept, and no leaf was written since.
    last: Option<LastBlock>,
    keeps_last: bool,
    // The leaves beneath each mapped device, and whether it is clear.
    beneath: [LeafSet; 64],
    // The leaves beneath the hash devices of the kept blocks' lines, and maybe further ones.
    covered: LeafSet,
}

impl Model for Cache {
    ghost use Rattle.stack_lines.specs.Caches.{StackCache};

    ghost Value = { StackCache };

    ghost view = { λ c. record { blocks = c.blocks; last = c.last; keeps_last = c.keeps_last; beneath = c.beneath; covered = c.covered } };
}

impl Cache {
    /// Returns an empty cache of at most `capacity` hash blocks, and of no data block. It allocates nothing before a block is
    /// kept.
    pub fn new(alloc: Global, config: &Config, capacity: u32) -> Cache
        requires { IsLoaded config.now }
        ensures { IsFreshCache config.now (record { blocks = capacity; last = false }) result }
    {
        Cache {
            blocks: BlockCache::empty(alloc, capacity),
            last: None,
            keeps_last: false,
            beneath: leaf_sets(config),
            covered: LeafSet::empty(false),
        }
    }

    /// Drops all blocks, and computes anew which leaves are beneath each device and whether it is clear.
    pub fn start_over(&mut self, config: &Config)
        requires { IsLoaded config.now }
        ensures { IsFreshCache config.now (capacity_of self.old) self.new }
    {
        self.blocks.forget_all();
        self.last = None;
        self.beneath = leaf_sets(config);
        self.covered = LeafSet::empty(false);
    }

    /// From now on a data block is kept too, unless the capacity is 0.
    pub fn keep_data(&mut self)
        ensures { self.new ≡ record self.old { keeps_last = self.old.keeps_last || not (self.old.blocks.capacity == 0) } }
    {
        if self.blocks.capacity() != 0 {
            self.keeps_last = true;
        }
    }

    /// Whether it is known that no sector of a leaf or device meets a fault of a line.
    pub(crate) fn is_clear(&self, lower: Lower) -> bool
        requires { IsPossibleLower lower }
        ensures { (c : Configuration) → IsLoaded c → KnowsLeaves c self.now.beneath lower → IsTrue result → IsClear c lower }
    {
        lower_leaves(&self.beneath, lower).clear
    }

    /// Returns a copy of the hash block kept under that key and that digest, if there is one.
    ///
    /// # Errors
    ///
    /// `OutOfMemory` if memory for the copy was refused.
    pub fn copy_of(
        &mut self,
        alloc: Global,
        key: Key,
        digest: &Digest,
    ) -> Result<Option<Vec<u8>>, OutOfMemory>
        ensures leaves { self.new ≡ record self.old { blocks = cache_after_find key digest.now self.old.blocks } }
        ensures answer { IfOk result (λ copy. option_map (λ block. block.items) copy ≡ option_map (λ b. b.bytes) (block_under key digest.now self.old.blocks)) }
        ensures err { OnErr result (IsUncopied self.old.blocks) }
    {
        match self.blocks.find(key, digest) {
            None => Ok(None),
            Some(block) => {
                let copy = copied(alloc, block)?;
                Ok(Some(copy))
            }
        }
    }

    /// Returns a copy of the data block that is kept, if it is kept under that key and that digest.
    ///
    /// # Errors
    ///
    /// `OutOfMemory` if memory for the copy was refused.
    pub fn copy_of_last(
        &self,
        alloc: Global,
        key: Key,
        digest: &Digest,
    ) -> Result<Option<Vec<u8>>, OutOfMemory>
        ensures answer { IfOk result (λ copy. IfSome copy (λ block. IsLastBlock self.now.last key digest.now block.items)) }
        ensures err { OnErr result (IsLastUncopied self.now.last) }
    {
        match &self.last {
            None => Ok(None),
            Some(last) => last.copy_under(alloc, key, digest),
        }
    }

    /// Keeps a copy of the data block in place of the one that is kept, if one is to be.
    ///
    /// # Errors
    ///
    /// `AllocError` if memory for the copy was refused.
    pub fn keep_last(
        &mut self,
        alloc: Global,
        key: Key,
        digest: Digest,
        block: &[u8],
    ) -> Result<(), AllocError>
        ensures ok { OnOk result (self.new ≡ record self.old { last = last_after_keep self.old.keeps_last (record { key = key; digest = digest; bytes = block.now }) self.old.last }) }
        ensures err { OnErr result (self.new ≡ self.old) }
    {
        if !self.keeps_last {
            return Ok(());
        }
        let bytes = copied(alloc, block)?;
        self.last = Some(LastBlock { key, digest, bytes });
        Ok(())
    }

    /// Notes that a hash block of a line with that hash device may be kept.
    pub fn cover(&mut self, hash: Lower)
        requires { IsPossibleLower hash }
        ensures rest { self.new ≡ record self.old { covered = self.new.covered } }
        ensures covered { (c : Configuration) → IsLoaded c → KnowsLeaves c self.old.beneath hash → (i : ℕ) → has_leaf self.new.covered i ≡ (has_leaf self.old.covered i || stands_on c i hash) }
    {
        self.covered = self.covered.union(lower_leaves(&self.beneath, hash));
    }

    /// Keeps a copy of the hash block.
    ///
    /// # Errors
    ///
    /// `AllocError` if memory for the copy was refused.
    pub fn keep_copy(
        &mut self,
        alloc: Global,
        key: Key,
        digest: Digest,
        block: &[u8],
    ) -> Result<(), AllocError>
        ensures ok { OnOk result (self.new ≡ record self.old { blocks = cache_after_keep (record { key = key; digest = digest; bytes = block.now }) self.old.blocks }) }
        ensures err { OnErr result (self.new ≡ self.old) }
    {
        // What holds of every cache is learned from a call.
        let _count = self.blocks.len();
        if self.blocks.capacity() == 0 {
            return Ok(());
        }
        let copy = copied(alloc, block)?;
        self.blocks.keep(key, digest, copy)
    }

    /// Returns how many hash blocks are kept.
    pub fn count(&self) -> usize
        ensures value { result ≡ length self.now.blocks.blocks }
        ensures within { result ≤ self.now.blocks.capacity }
    {
        self.blocks.len()
    }

    /// Drops the data block, and the hash blocks of the lines whose hash device is the leaf, or is stacked on it; it looks at each
    /// hash block once. If none was kept for such a line since the last time, no hash block is looked at.
    pub fn forget_leaf(&mut self, config: &Config, leaf: u32)
        requires loaded { IsLoaded config.now }
        requires leaf { leaf < most_leaves }
        requires sets { AreLeafSets config.now self.old.beneath }
        requires covers { CoversBlocks config.now self.old.covered self.old.blocks.blocks }
        ensures blocks { self.new.blocks ≡ cache_without_leaf config.now leaf self.old.blocks }
        ensures rest { self.new ≡ record self.old { blocks = self.new.blocks; last = None; covered = self.new.covered } }
        ensures covers { CoversBlocks config.now self.new.covered self.new.blocks.blocks }
    {
        self.last = None;
        if !self.covered.contains(leaf) {
            return;
        }
        self.blocks.forget_where(&KeysOnLeaf {
            config,
            beneath: &self.beneath,
            leaf,
        });
        self.covered = self.covered.without(leaf);
    }
}
