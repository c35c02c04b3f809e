//! The digests of eight states.
ghost use Rattle.std.specs.Prelude.{◌≡◌, ℕ, ◌<◌, [], slice_index_or};
ghost use Rattle.sha2.specs.Sha256.{digest_bytes};
ghost use Rattle.sha256_lanes.specs.Lanes.{state_of_lane};

use std::simd::prelude::*;

// Returns the digest in lane `at` of the states.
fn digest_of(words: &[[u32; 8]; 8], at: usize) -> [u8; 32]
    requires { at < 8 }
    ensures { result ≡ digest_bytes (state_of_lane at words.now) 8 }
{
    let mut out = [0u8; 32];
    'words: for i in 0..8usize {
        out[4 * i..4 * i + 4].copy_from_slice(&words[i][at].to_be_bytes());
    }
    out
}

pub(crate) fn digests(state: &[u32x8; 8]) -> [[u8; 32]; 8]
    ensures { (j : ℕ) → j < 8 → slice_index_or result j [] ≡ digest_bytes (state_of_lane j state.now) 8 }
{
    let words = [
        state[0].to_array(),
        state[1].to_array(),
        state[2].to_array(),
        state[3].to_array(),
        state[4].to_array(),
        state[5].to_array(),
        state[6].to_array(),
        state[7].to_array(),
    ];
    let mut out = [[0u8; 32]; 8];
    for j in 0..8usize {
        out[j] = digest_of(&words, j);
    }
    out
}
