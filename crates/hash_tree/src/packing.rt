//! The area: a tree's hash blocks as they are stored.
ghost use Rattle.std.specs.Prelude.{◌≡◌, ◌+◌, ◌-◌, ◌*◌, ◌≤◌, ◌<◌, ◌/◌, ◌%◌, ◌++◌, length, map, replicate, All, IfOk, OnErr, OnOk, IsTrue};
ghost use Rattle.allocation.specs.Refusal.{IsOutOfMemory};
ghost use Rattle.std.specs.List.{concat};
ghost use Rattle.tree_shape.specs.Digests.{digest};
ghost use Rattle.tree_shape.specs.Shape.{area_blocks, is_block_size};
ghost use Rattle.hash_tree.specs.Tree.{area, root, cut};

use crate::digest_blocks;
use allocation::{OutOfMemory, filled, zeros};
use std::alloc::Global;
use tree_shape::{Digest, Salt, Shape};

/// The tree's hash blocks as they are stored, the top level first and each filled up with zeros, and the root
/// digest. `digests` are those of the data blocks in their order; each hash block is made once.
///
/// # Errors
///
/// `OutOfMemory` if the allocator refused room for the area, or for the digests of a level.
pub fn area(
    alloc: Global,
    shape: &Shape,
    salt: &Salt,
    digests: &[Digest],
) -> Result<(Vec<u8>, Digest), OutOfMemory>
    requires { length digests.now ≡ shape.now.blocks }
    ensures area { IfOk result (λ r. r.0.items ≡ concat (area shape.now.hash_block salt.now digests.now)) }
    ensures root { IfOk result (λ r. r.1 ≡ root shape.now.hash_block salt.now digests.now) }
    ensures err { OnErr result (IsOutOfMemory (area_blocks shape.now * shape.now.hash_block)) }
{
    are_whole(digests);
    let hash_block = shape.hash_block() as usize;
    let size = shape.area_blocks() as usize * hash_block;
    let mut bytes = zeros(alloc, size)?;
    let root = build(alloc, hash_block, salt, digests, &mut bytes)?;
    Ok((bytes, root))
}

/// Each digest has its 32 bytes.
pub(crate) fn are_whole(digests: &[Digest])
    ensures { All (λ d. length d ≡ 32) digests.now }
{
    for digest in digests {
        let _bytes = digest.as_bytes();
    }
}

/// Writes the tree over some digests, level by level from the end, and gives its root.
fn build(
    alloc: Global,
    hash_block: usize,
    salt: &Salt,
    digests: &[Digest],
    out: &mut [u8],
) -> Result<Digest, OutOfMemory>
    requires size { IsTrue (is_block_size hash_block) }
    requires some { 0 < length digests.now }
    requires sized { All (λ d. length d ≡ 32) digests.now }
    requires room { length out.old ≡ hash_block * length (area hash_block salt.now digests.now) }
    ensures area { OnOk result (out.new ≡ concat (area hash_block salt.now digests.now)) }
    ensures root { IfOk result (λ r. r ≡ root hash_block salt.now digests.now) }
    ensures err { OnErr result (IsOutOfMemory (length out.old)) }
{
    if digests.len() == 1 {
        return Ok(digests[0]);
    }
    let above = level_start(hash_block, digests.len(), out.len());
    put_digests(digests, &mut out[above..]);
    let next = digests_of(alloc, hash_block, salt, &out[above..])?;
    build(alloc, hash_block, salt, &next, &mut out[..above])
}

/// Where a level begins that holds so many digests and has its end there.
fn level_start(hash_block: usize, digests: usize, end: usize) -> usize
    requires size { 32 ≤ hash_block }
    requires room { hash_block * ((digests - 1) / (hash_block / 32) + 1) ≤ end }
    requires some { 0 < digests }
    ensures { result + hash_block * ((digests - 1) / (hash_block / 32) + 1) ≡ end }
{
    end - hash_block * ((digests - 1) / (hash_block / Digest::SIZE) + 1)
}

/// Writes the digests and fills the rest with zeros.
fn put_digests(digests: &[Digest], out: &mut [u8])
    requires { 32 * length digests.now ≤ length out.old }
    ensures { out.new ≡ concat digests.now ++ replicate (length out.old - 32 * length digests.now) 0 }
{
    let mut end = 0;
    for digest in digests {
        out[end..end + Digest::SIZE].copy_from_slice(digest.as_bytes());
        end += Digest::SIZE;
    }
    out[end..].fill(0);
}

/// The digests of blocks that follow each other.
fn digests_of(
    alloc: Global,
    hash_block: usize,
    salt: &Salt,
    blocks: &[u8],
) -> Result<Vec<Digest>, OutOfMemory>
    requires size { 0 < hash_block }
    requires whole { length blocks.now % hash_block ≡ 0 }
    ensures ok { IfOk result (λ v. v.items ≡ map (digest salt.now) (cut hash_block blocks.now)) }
    ensures err { OnErr result (IsOutOfMemory (length blocks.now / hash_block)) }
{
    let count = blocks.len() / hash_block;
    let mut digests = filled(alloc, count, Digest::new([0; Digest::SIZE]))?;
    digest_blocks(salt, hash_block, blocks, &mut digests);
    Ok(digests)
}
