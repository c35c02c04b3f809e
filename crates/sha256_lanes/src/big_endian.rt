//! Big-endian words loaded from bytes into lanes.
ghost use Rattle.std.specs.Prelude.{◌≡◌, ℕ, ◌+◌, ◌*◌, ◌<◌, ◌≤◌, ◌∷◌, [], length, slice_index};
ghost use Rattle.sha2.specs.Sha256.{word_at};
ghost use Rattle.sha256_lanes.specs.Lanes.{word_of_lane};

use std::simd::prelude::*;

#[inline(always)]
fn piece(bytes: &[u8], at: usize) -> u8x16
    requires { at + 16 ≤ length bytes.now }
    ensures size { length result ≡ 16 }
    ensures bytes { (i : ℕ) → slice_index result i < 256 }
    ensures value { (i : ℕ) → i < 16 → slice_index result i ≡ slice_index bytes.now (at + i) }
{
    u8x16::from_slice(&bytes[at..at + 16])
}

// Returns the four words from byte `low` on, followed by the four from byte `high` on.
#[inline(always)]
fn two_fours(bytes: &[u8], low: usize, high: usize) -> u32x8
    requires low { low + 16 ≤ length bytes.now }
    requires high { high + 16 ≤ length bytes.now }
    ensures size { length result ≡ 8 }
    ensures low { (k : ℕ) → k < 4 → slice_index result k ≡ word_at bytes.now (low + 4 * k) }
    ensures high { (k : ℕ) → k < 4 → slice_index result (4 + k) ≡ word_at bytes.now (high + 4 * k) }
{
    let first = piece(bytes, low);
    let second = piece(bytes, high);
    let reversed = first.shuffle(
        second,
        [
            3, 2, 1, 0, 7, 6, 5, 4, 11, 10, 9, 8, 15, 14, 13, 12, 19, 18, 17, 16, 23, 22, 21, 20,
            27, 26, 25, 24, 31, 30, 29, 28,
        ],
    );
    u32x8::from_le_bytes(reversed)
}

// Transposes four rows of four words in each half of the vectors.
#[inline(always)]
fn turned(a: u32x8, b: u32x8, c: u32x8, d: u32x8) -> [u32x8; 4]
    requires first { (length a ≡ 8) × (length b ≡ 8) }
    requires last { (length c ≡ 8) × (length d ≡ 8) }
    ensures low { (k j : ℕ) → k < 4 → j < 4 → word_of_lane result k j ≡ word_of_lane (a ∷ b ∷ c ∷ d ∷ []) j k }
    ensures high { (k j : ℕ) → k < 4 → j < 4 → word_of_lane result k (4 + j) ≡ word_of_lane (a ∷ b ∷ c ∷ d ∷ []) j (4 + k) }
{
    let ab = a.shuffle(b, [0, 8, 1, 9, 4, 12, 5, 13]);
    let cd = c.shuffle(d, [0, 8, 1, 9, 4, 12, 5, 13]);
    let ab_later = a.shuffle(b, [2, 10, 3, 11, 6, 14, 7, 15]);
    let cd_later = c.shuffle(d, [2, 10, 3, 11, 6, 14, 7, 15]);
    [
        ab.shuffle(cd, [0, 1, 8, 9, 4, 5, 12, 13]),
        ab.shuffle(cd, [2, 3, 10, 11, 6, 7, 14, 15]),
        ab_later.shuffle(cd_later, [0, 1, 8, 9, 4, 5, 12, 13]),
        ab_later.shuffle(cd_later, [2, 3, 10, 11, 6, 7, 14, 15]),
    ]
}

// Returns the four words from byte `at` on of each lane's bytes; the lanes' bytes begin `stride` bytes apart.
#[inline(always)]
fn four_words(bytes: &[u8], at: usize, stride: usize) -> [u32x8; 4]
    requires { at + 7 * stride + 16 ≤ length bytes.now }
    ensures { (k j : ℕ) → k < 4 → j < 8 → word_of_lane result k j ≡ word_at bytes.now (at + 4 * k + j * stride) }
{
    turned(
        two_fours(bytes, at, at + 4 * stride),
        two_fours(bytes, at + stride, at + 5 * stride),
        two_fours(bytes, at + 2 * stride, at + 6 * stride),
        two_fours(bytes, at + 3 * stride, at + 7 * stride),
    )
}

// Returns the sixteen words from byte `at` on of each lane's bytes; the lanes' bytes begin `stride` bytes apart.
#[inline(always)]
pub(crate) fn words(bytes: &[u8], at: usize, stride: usize) -> [u32x8; 16]
    requires { at + 7 * stride + 64 ≤ length bytes.now }
    ensures { (j : ℕ) → j < 8 → (k : ℕ) → k < 16 → word_of_lane result k j ≡ word_at bytes.now (at + 4 * k + j * stride) }
{
    let a = four_words(bytes, at, stride);
    let b = four_words(bytes, at + 16, stride);
    let c = four_words(bytes, at + 32, stride);
    let d = four_words(bytes, at + 48, stride);
    [
        a[0], a[1], a[2], a[3], b[0], b[1], b[2], b[3], c[0], c[1], c[2], c[3], d[0], d[1], d[2],
        d[3],
    ]
}
