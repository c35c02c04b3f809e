//! The hash blocks on the path to a data block.
ghost use Rattle.std.specs.Prelude.{◌≡◌, ◌≤◌, ◌<◌, ◌+◌, ◌-◌, ◌*◌, ◌/◌, IsTrue, IsOk, OnErr, IfOk};
ghost use Rattle.allocation.specs.Refusal.{IsOutOfMemory};
ghost use Rattle.block_device.specs.Call.{DeviceDoes};
ghost use Rattle.block_device.specs.Device.{HasFailed};
ghost use Rattle.tree_shape.specs.Shape.{ancestor, levels};
ghost use Rattle.verity_format.specs.Blocks.{IsOnlyRead};
ghost use Rattle.verity_format.specs.Image.{tree_sectors};
ghost use Rattle.tree_path.specs.Path.{IsPathOf, block_of, digest_on, largest_block};
ghost use Rattle.tree_path.specs.Steps.{CanDescend, HasCome, HasReadAtMost, IsKeptAbove, IsStepLoaded, IsUnloaded, MakesReads, steps};
ghost use Rattle.tree_path.specs.Unused.{is_unused_zero};

use crate::reading::{read_block, zero_blocks};
use crate::unused::{is_zero_after, used_entries};
use allocation::OutOfMemory;
use block_device::{BlockDev, DeviceFault};
use std::alloc::Global;
use std::marker::Model;
use tree_shape::{Digest, Salt, Shape, digest_in};
use verity_format::is_same;

/// A tree, and one hash block of each of its levels.
#[derive(Drop)]
pub struct TreePath {
    shape: Shape,
    salt: Salt,
    root: Digest,
    blocks: Vec<Vec<u8>>,
}

impl Model for TreePath {
    ghost use Rattle.tree_path.specs.Path.{IsPath, PathRecord};
    ghost use Rattle.tree_path.specs.Seen.{seen_path};

    ghost Value = { PathRecord };

    ghost view = { seen_path };

    ghost invariant = { λ p. IsPath (seen_path p) };
}

impl TreePath {
    /// Returns a path with zeroed hash blocks; nothing is read.
    ///
    /// # Errors
    ///
    /// `OutOfMemory` if the allocation of a hash block or of the list of hash blocks fails.
    pub fn new(
        alloc: Global,
        shape: Shape,
        salt: Salt,
        root: Digest,
    ) -> Result<TreePath, OutOfMemory>
        ensures ok { IfOk result (IsPathOf shape salt root) }
        ensures err { OnErr result (IsOutOfMemory largest_block) }
    {
        let blocks = zero_blocks(alloc, shape.levels(), shape.hash_block() as usize)?;
        Ok(TreePath {
            shape,
            salt,
            root,
            blocks,
        })
    }

    /// Returns the digest expected `level` levels above a data block: at level 0 that of the data block, at the top
    /// the root hash.
    pub fn digest_at(&self, level: u32, index: u64) -> Digest
        requires { level ≤ levels self.now.shape }
        ensures { result ≡ digest_on self.now index level }
    {
        if level == self.shape.levels() {
            return self.root;
        }
        let slot = self.shape.slot_on_path(level, index);
        digest_in(&self.blocks[level as usize], slot)
    }

    /// Returns the number of levels of the tree.
    pub fn levels(&self) -> u32
        ensures { result ≡ levels self.now.shape }
    {
        self.shape.levels()
    }

    /// Returns the number of data blocks of the tree.
    pub fn data_blocks(&self) -> u64
        ensures { result ≡ self.now.shape.blocks }
    {
        self.shape.blocks()
    }

    /// Returns the index, within its level, of the hash block on the path to data block `index`.
    pub fn block_number(&self, level: u32, index: u64) -> u64
        requires { index < self.now.shape.blocks }
        ensures { result ≡ ancestor self.now.shape (level + 1) index }
    {
        self.shape.block_on_path(level, index)
    }

    /// Returns whether the hash block of a level on the path to a data block is zero after its last used entry, as in
    /// every tree that is formatted.
    pub fn is_unused_zero(&self, level: u32, index: u64) -> bool
        requires level { level < levels self.now.shape }
        requires index { index < self.now.shape.blocks }
        ensures { result ≡ is_unused_zero self.now.shape level (ancestor self.now.shape (level + 1) index) (block_of self.now level) }
    {
        let number = self.shape.block_on_path(level, index);
        let used = used_entries(&self.shape, level, number);
        is_zero_after(&self.blocks[level as usize], used)
    }

    /// Reads the hash block of a level on the path to a data block. Returns whether it has its expected digest: that
    /// stored in its parent, or the root hash.
    ///
    /// # Errors
    ///
    /// `DeviceFault` if the device fails; the buffer of that hash block then holds arbitrary bytes.
    pub fn load<H: BlockDev>(
        &mut self,
        device: &mut H,
        level: u32,
        index: u64,
    ) -> Result<bool, DeviceFault>
        requires level { level < levels self.old.shape }
        requires index { index < self.old.shape.blocks }
        requires fits { tree_sectors self.old.shape ≤ (H.state device.old).size }
        ensures read { IsOnlyRead (H.state device.old) (H.state device.new) }
        ensures ok { IfOk result (IsStepLoaded (steps self.old self.new (H.state device.old) (H.state device.new) index level)) }
        ensures fault { OnErr result (IsUnloaded (steps self.old self.new (H.state device.old) (H.state device.new) index level)) }
        ensures sure { IsTrue (H.state device.old).never_fails → IsOk result }
        ensures asked { HasReadAtMost (H.state device.old) (self.old.shape.hash_block / 512) (H.state device.new) }
        ensures calls { MakesReads (DeviceDoes H.state H.does) device.old device.new }
        ensures counted { (H.state device.old).failures ≤ (H.state device.new).failures }
    {
        let place = self
            .shape
            .position(level, self.shape.block_on_path(level, index));
        read_block(device, place, &mut self.blocks[level as usize])?;
        let found = self.salt.digest(&self.blocks[level as usize]);
        Ok(is_same(&found, &self.digest_at(level + 1, index)))
    }

    /// Reads the hash blocks of levels `from - 1` down to `to` on the path to a data block, and verifies each with
    /// its expected digest. Stops after the first that fails verification and returns its level, or `None` if all
    /// pass.
    ///
    /// # Errors
    ///
    /// `DeviceFault` if the device fails; the tree and the blocks of the levels from `from` up are unchanged.
    pub fn descend<H: BlockDev>(
        &mut self,
        device: &mut H,
        index: u64,
        from: u32,
        to: u32,
    ) -> Result<Option<u32>, DeviceFault>
        requires { CanDescend self.old (H.state device.old) index from to }
        ensures read { IsOnlyRead (H.state device.old) (H.state device.new) }
        ensures ok { IfOk result (HasCome (steps self.old self.new (H.state device.old) (H.state device.new) index from) to) }
        ensures fault { OnErr result (HasFailed (H.state device.old) (H.state device.new)) }
        ensures kept { OnErr result (IsKeptAbove (steps self.old self.new (H.state device.old) (H.state device.new) index from)) }
        ensures sure { IsTrue (H.state device.old).never_fails → IsOk result }
        ensures asked { HasReadAtMost (H.state device.old) ((from - to) * (self.old.shape.hash_block / 512)) (H.state device.new) }
        ensures calls { MakesReads (DeviceDoes H.state H.does) device.old device.new }
        ensures counted { (H.state device.old).failures ≤ (H.state device.new).failures }
    {
        let mut level = from;
        'levels: while level > to {
            level -= 1;
            if !self.load(device, level, index)? {
                return Ok(Some(level));
            }
        }
        Ok(None)
    }
}
