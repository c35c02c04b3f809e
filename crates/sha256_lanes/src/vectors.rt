//! Operations on vectors of eight words, lane by lane.
ghost use Rattle.std.specs.Prelude.{◌≡◌, ℕ, ◌/◌, ◌^◌, ◌<◌, slice_index, bit_and, bit_xor};
ghost use Rattle.std.specs.Int.{rotate_right, w32};
ghost use Rattle.sha2.specs.Sha256.{add32};

use std::simd::prelude::*;

#[inline(always)]
pub(crate) fn add(a: u32x8, b: u32x8) -> u32x8
    ensures { (j : ℕ) → j < 8 → slice_index result j ≡ add32 (slice_index a j) (slice_index b j) }
{
    a + b
}

#[inline(always)]
pub(crate) fn xor(a: u32x8, b: u32x8) -> u32x8
    ensures { (j : ℕ) → j < 8 → slice_index result j ≡ bit_xor (slice_index a j) (slice_index b j) }
{
    a ^ b
}

#[inline(always)]
pub(crate) fn and(a: u32x8, b: u32x8) -> u32x8
    ensures { (j : ℕ) → j < 8 → slice_index result j ≡ bit_and (slice_index a j) (slice_index b j) }
{
    a & b
}

#[inline(always)]
pub(crate) fn rotate_right(x: u32x8, k: u32) -> u32x8
    requires { (0 < k) × (k < 32) }
    ensures { (j : ℕ) → j < 8 → slice_index result j ≡ rotate_right w32 (slice_index x j) k }
{
    (x >> u32x8::splat(k)) | (x << u32x8::splat(32 - k))
}

#[inline(always)]
pub(crate) fn shift_right(x: u32x8, k: u32) -> u32x8
    requires { (0 < k) × (k < 32) }
    ensures { (j : ℕ) → j < 8 → slice_index result j ≡ slice_index x j / 2 ^ k }
{
    x >> u32x8::splat(k)
}
