//! The slots of cached blocks.
ghost use Rattle.std.specs.Prelude.{◌≡◌, None, map, IfOk, IfSome, OnErr};
ghost use Rattle.std.specs.NonZero.{non_zero_usize_get};
ghost use Rattle.verified_cache.specs.Slots.{slot_block, slot_blocks};

use crate::Key;
use lru::LruCache;
use std::alloc::{AllocError, Global};
use std::num::NonZeroUsize;
use tree_shape::Digest;

/// A block and the digest that it was verified against.
#[derive(Drop)]
pub(crate) struct DigestedBlock {
    pub(crate) digest: Digest,
    pub(crate) bytes: Vec<u8>,
}

/// Returns the slots, or newly allocated ones for `most` blocks if there are none.
///
/// # Errors
///
/// `AllocError` if there are no slots and the allocation fails.
pub(crate) fn slots_or_new(
    alloc: Global,
    slots: Option<LruCache<Key, DigestedBlock>>,
    most: NonZeroUsize,
) -> Result<LruCache<Key, DigestedBlock>, AllocError>
    ensures blocks { IfOk result (λ made. map slot_block made.entries ≡ slot_blocks slots) }
    ensures most { IfSome slots (λ there. there.cap ≡ non_zero_usize_get most) → IfOk result (λ made. made.cap ≡ non_zero_usize_get most) }
    ensures err { OnErr result (slots ≡ None) }
{
    match slots {
        Some(slots) => Ok(slots),
        None => LruCache::sparse(alloc, most),
    }
}
