//! The entries of a hash block that hold digests, and whether the bytes after them are zero.
ghost use Rattle.std.specs.Prelude.{◌≡◌, ◌==◌, ◌≤◌, ◌<◌, ◌*◌, drop, length};
ghost use Rattle.std.specs.List.{list_all};
ghost use Rattle.tree_shape.specs.Shape.{level_blocks, levels};
ghost use Rattle.tree_path.specs.Unused.{digests_in, used_entries};

use tree_shape::{Digest, Shape};

/// Returns how many entries of hash block `number` of a level hold a digest: all, or the remaining ones in the last
/// block of the level.
pub(crate) fn used_entries(shape: &Shape, level: u32, number: u64) -> u64
    requires level { level < levels shape.now }
    requires inside { number < level_blocks shape.now level }
    ensures value { result ≡ used_entries shape.now level number }
    ensures inside { 32 * result ≤ shape.now.hash_block }
{
    let per_block = shape.per_block();
    let first = number * per_block;
    digests_in(shape, level)
        .saturating_sub(first)
        .min(per_block)
}

// Returns the number of digests in a level.
fn digests_in(shape: &Shape, level: u32) -> u64
    requires { level < levels shape.now }
    ensures { result ≡ digests_in shape.now level }
{
    let blocks = shape.blocks();
    if level == 0 {
        return blocks;
    }
    shape.level_blocks(level - 1)
}

/// Returns whether all bytes of a block after its first `entries` entries are zero.
pub(crate) fn is_zero_after(block: &[u8], entries: u64) -> bool
    requires { 32 * entries ≤ length block.now }
    ensures { result ≡ list_all (λ b. b == 0) (drop (32 * entries) block.now) }
{
    let used = Digest::SIZE * entries as usize;
    are_zeros(&block[used..])
}

fn are_zeros(bytes: &[u8]) -> bool
    ensures { result ≡ list_all (λ b. b == 0) bytes.now }
{
    bytes.iter().all(|b| *b == 0)
}
