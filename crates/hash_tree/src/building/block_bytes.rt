//! The bytes of a block under construction.
ghost use Rattle.std.specs.Prelude.{◌≡◌, ◌++◌, [], OnOk, OnErr};
ghost use Rattle.std.specs.Option.{unwrap_or};
ghost use Rattle.allocation.specs.Refusal.{IsOutOfMemory};
ghost use Rattle.hash_tree.specs.Tree.{filled};
ghost use Rattle.hash_tree.specs.Building.{block_room};

use allocation::{OutOfMemory, reserve, resize};
use tree_shape::Digest;

/// Appends a digest; the first one takes the memory for a block of `size` bytes.
pub(super) fn append(bytes: &mut Vec<u8>, digest: &Digest, size: usize) -> Result<(), OutOfMemory>
    ensures ok { OnOk result (bytes.new.items ≡ bytes.old.items ++ digest.now) }
    ensures err { OnErr result (IsOutOfMemory (block_room size)) }
{
    if bytes.is_empty() {
        reserve(bytes, size)?;
    }
    allocation::append(bytes, digest.as_bytes())
}

/// Appends a digest, if there is one.
pub(super) fn extend(
    bytes: &mut Vec<u8>,
    digest: Option<Digest>,
    hash_block: usize,
) -> Result<(), OutOfMemory>
    ensures ok { OnOk result (bytes.new.items ≡ bytes.old.items ++ unwrap_or digest []) }
    ensures err { OnErr result (IsOutOfMemory (block_room hash_block)) }
{
    if let Some(digest) = digest {
        append(bytes, &digest, hash_block)?;
    }
    Ok(())
}

/// Appends zeros up to that size.
pub(super) fn fill(bytes: &mut Vec<u8>, size: usize) -> Result<(), OutOfMemory>
    ensures ok { OnOk result (bytes.new.items ≡ filled size bytes.old.items) }
    ensures err { OnErr result (IsOutOfMemory (block_room size)) }
{
    let len = bytes.len();
    if len < size {
        resize(bytes, size, 0)?;
    }
    Ok(())
}
