//! SHA-256 of eight messages (FIPS 180-4, section 6.2).
ghost use Rattle.std.specs.Prelude.{◌≡◌, ℕ, ◌*◌, ◌/◌, ◌+◌, ◌^◌, ◌<◌, [], length, slice_index_or};
ghost use Rattle.sha2.specs.Sha256.{sha256};
ghost use Rattle.sha256_lanes.specs.Lanes.{EachTakesIn, message, message_block};

use crate::digests::digests;
use crate::message::message_blocks;
use crate::rounds;
use std::simd::prelude::*;

// Compresses message block `index` of each message into its lane. `words` is scratch space for the message schedules.
#[inline(always)]
fn take_in(
    state: &mut [u32x8; 8],
    words: &mut [u32x8; 64],
    prefix: &[u8],
    blocks: &[u8],
    size: usize,
    index: usize,
)
    requires blocks { length blocks.now ≡ 8 * size }
    requires room { length prefix.now + size + 136 < 2 ^ 64 }
    requires inside { index < (length prefix.now + size + 72) / 64 }
    ensures { EachTakesIn (λ j. message_block (message prefix.now blocks.now size j) index) state.old state.new }
{
    let at = index * 64;
    if prefix.len() <= at && at + 64 <= prefix.len() + size {
        let from = at - prefix.len();
        rounds::compress(state, words, blocks, from, size);
    } else {
        let bytes = message_blocks(prefix, blocks, size, index);
        rounds::compress(state, words, &bytes, 0, 64);
    }
}

/// Returns eight SHA-256 digests: digest j is that of `prefix` followed by block j, the `size` bytes from byte `j *
/// size` of `blocks` on.
///
/// `blocks` must have `8 * size` bytes.
pub fn digest_eight(prefix: &[u8], blocks: &[u8], size: usize) -> [[u8; 32]; 8]
    requires { length blocks.now ≡ 8 * size }
    ensures { (j : ℕ) → j < 8 → slice_index_or result j [] ≡ sha256 (message prefix.now blocks.now size j) }
{
    let count = (prefix.len() + size + 72) / 64;
    let mut state = [
        u32x8::splat(0x6a09e667),
        u32x8::splat(0xbb67ae85),
        u32x8::splat(0x3c6ef372),
        u32x8::splat(0xa54ff53a),
        u32x8::splat(0x510e527f),
        u32x8::splat(0x9b05688c),
        u32x8::splat(0x1f83d9ab),
        u32x8::splat(0x5be0cd19),
    ];
    let mut words = [u32x8::splat(0); 64];
    for index in 0..count {
        take_in(&mut state, &mut words, prefix, blocks, size, index);
    }
    digests(&state)
}
