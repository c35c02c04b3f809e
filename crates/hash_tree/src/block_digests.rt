//! Digests of blocks.
ghost use Rattle.std.specs.Prelude.{◌≡◌, ◌<◌, ◌≤◌, ◌+◌, ◌*◌, ◌/◌, ◌%◌, length, map, take, drop};
ghost use Rattle.tree_shape.specs.Digests.{digest};
ghost use Rattle.hash_tree.specs.Tree.{cut};

use sha256_lanes::digest_eight;
use tree_shape::{Digest, Salt};

/// The digests of blocks of `size` bytes that follow each other: eight at a time side by side, and the
/// rest one by one. `out` has room for exactly as many.
pub fn digest_blocks(salt: &Salt, size: usize, blocks: &[u8], out: &mut [Digest])
    requires some { 0 < size }
    requires whole { length blocks.now % size ≡ 0 }
    requires count { length out.old ≡ length blocks.now / size }
    ensures { out.new ≡ map (digest salt.now) (cut size blocks.now) }
{
    let groups = out.len() / 8;
    for g in 0..groups {
        let eight = eight_digests(salt, size, blocks, g);
        out[8 * g..8 * g + 8].copy_from_slice(&eight);
    }
    for i in 8 * groups..out.len() {
        out[i] = salt.digest(&blocks[i * size..(i + 1) * size]);
    }
}

/// The digests of eight blocks, from block 8 g on.
pub(crate) fn eight_digests(salt: &Salt, size: usize, blocks: &[u8], g: usize) -> [Digest; 8]
    requires some { 0 < size }
    requires whole { length blocks.now % size ≡ 0 }
    requires inside { 8 * g + 8 ≤ length blocks.now / size }
    ensures { result ≡ map (digest salt.now) (take 8 (drop (8 * g) (cut size blocks.now))) }
{
    let group = &blocks[8 * g * size..(8 * g + 8) * size];
    let made = digest_eight(salt.bytes(), group, size);
    whole(made)
}

/// Eight arrays as digests.
fn whole(lanes: [[u8; 32]; 8]) -> [Digest; 8]
    ensures { result ≡ lanes }
{
    lanes.map(Digest::new)
}
