//! The message blocks of a padded message whose contents are a prefix and a block.
ghost use Rattle.std.specs.Prelude.{◌≡◌, ℕ, ◌+◌, ◌*◌, ◌/◌, ◌^◌, ◌<◌, ◌≤◌, ◌++◌, List, length, take, drop, slice_index};
ghost use Rattle.sha256_lanes.specs.Lanes.{AreMessageBlocks, HasBytes, HasBytesBefore, HasBytesFrom, HasPiece, message};

// Copies to `out`, which holds the 64 message bytes from `at` on, the part of `piece` within them. `piece` begins at
// byte `start`.
#[inline(always)]
fn overlay(out: &mut [u8; 64], at: usize, piece: &[u8], start: usize)
    requires room { (at + 64 < 2 ^ 64) × (start + length piece.now < 2 ^ 64) }
    ensures inside { HasPiece at piece.now start out.new }
    ensures before { (k : ℕ) → k < 64 → at + k < start → slice_index out.new k ≡ slice_index out.old k }
    ensures after { (k : ℕ) → k < 64 → start + length piece.now ≤ at + k → slice_index out.new k ≡ slice_index out.old k }
{
    let from = at.max(start);
    let to = (at + 64).min(start + piece.len());
    if from < to {
        out[from - at..to - at].copy_from_slice(&piece[from - start..to - start]);
    }
}

// Returns message block `index` without the block's bytes: the prefix before them and the padding after them.
fn frame(prefix: &[u8], size: usize, index: usize) -> [u8; 64]
    requires room { length prefix.now + size + 136 < 2 ^ 64 }
    requires inside { index < (length prefix.now + size + 72) / 64 }
    ensures before { (b : List ℕ) → HasBytesBefore (length prefix.now) (prefix.now ++ b) index result }
    ensures behind { (b : List ℕ) → length b ≡ size → HasBytesFrom (length prefix.now + size) (prefix.now ++ b) index result }
{
    let at = index * 64;
    let start = prefix.len();
    let len = start + size;
    let end = (len + 72) / 64 * 64 - 8;
    let bits = (len as u64).wrapping_mul(8).to_be_bytes();
    let mut out = [0u8; 64];
    overlay(&mut out, at, prefix, 0);
    overlay(&mut out, at, &[0x80], len);
    overlay(&mut out, at, &bits, end);
    out
}

// Returns message block `index`: its frame with the part of the block that lies in it.
fn message_block(frame: &[u8; 64], prefix: &[u8], block: &[u8], index: usize) -> [u8; 64]
    requires room { length prefix.now + length block.now + 136 < 2 ^ 64 }
    requires inside { index < (length prefix.now + length block.now + 72) / 64 }
    requires before { HasBytesBefore (length prefix.now) (prefix.now ++ block.now) index frame.now }
    requires behind { HasBytesFrom (length prefix.now + length block.now) (prefix.now ++ block.now) index frame.now }
    ensures { HasBytes (prefix.now ++ block.now) index result }
{
    let mut out = *frame;
    overlay(&mut out, index * 64, block, prefix.len());
    out
}

// Returns block j of the consecutive blocks.
#[inline(always)]
fn block(blocks: &[u8], size: usize, j: usize) -> &[u8]
    requires blocks { length blocks.now ≡ 8 * size }
    requires inside { j < 8 }
    ensures value { result.now ≡ take size (drop (j * size) blocks.now) }
    ensures size { length result.now ≡ size }
{
    &blocks[j * size..j * size + size]
}

// Returns message block `index` of each message, consecutively.
pub(crate) fn message_blocks(prefix: &[u8], blocks: &[u8], size: usize, index: usize) -> [u8; 512]
    requires blocks { length blocks.now ≡ 8 * size }
    requires room { length prefix.now + size + 136 < 2 ^ 64 }
    requires inside { index < (length prefix.now + size + 72) / 64 }
    ensures { AreMessageBlocks (message prefix.now blocks.now size) index result }
{
    let shared = frame(prefix, size, index);
    let mut out = [0u8; 512];
    for j in 0..8usize {
        let row = message_block(&shared, prefix, block(blocks, size, j), index);
        out[j * 64..j * 64 + 64].copy_from_slice(&row);
    }
    out
}
