//! The data block that a stack keeps.
ghost use Rattle.std.specs.Prelude.{◌≡◌, Some, IfOk, IfSome, OnErr};
ghost use Rattle.stack_lines.specs.Caches.{IsLastBlock, IsLastUncopied};

use allocation::{OutOfMemory, copied};
use std::alloc::Global;
use std::marker::Model;
use tree_shape::Digest;
use verified_cache::Key;

/// A data block that was checked, its key, whose level is 0, and the digest by which it was.
#[derive(Drop)]
pub(crate) struct LastBlock {
    pub(crate) key: Key,
    pub(crate) digest: Digest,
    pub(crate) bytes: Vec<u8>,
}

impl Model for LastBlock {
    ghost use Rattle.verified_cache.specs.Cache.{CachedBlock};

    ghost Value = { CachedBlock };

    ghost view = { λ b. record { key = b.key; digest = b.digest; bytes = b.bytes.items } };
}

impl LastBlock {
    /// A copy of the block, if it is kept under that key and that digest.
    pub(crate) fn copy_under(
        &self,
        alloc: Global,
        key: Key,
        digest: &Digest,
    ) -> Result<Option<Vec<u8>>, OutOfMemory>
        ensures answer { IfOk result (λ copy. IfSome copy (λ block. IsLastBlock (Some self.now) key digest.now block.items)) }
        ensures err { OnErr result (IsLastUncopied (Some self.now)) }
    {
        if self.key != key || self.digest != *digest {
            return Ok(None);
        }
        let copy = copied(alloc, self.bytes.as_slice())?;
        Ok(Some(copy))
    }
}
