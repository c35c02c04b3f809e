//! The functions of FIPS 180-4, section 4.1.2, on vectors of eight words.
ghost use Rattle.std.specs.Prelude.{◌≡◌, ℕ, ◌<◌, slice_index};
ghost use Rattle.sha2.specs.Sha256.{ch, maj, big_sigma0, big_sigma1, small_sigma0, small_sigma1};

use crate::vectors::{and, rotate_right, shift_right, xor};
use std::simd::prelude::*;

// One operation fewer than the standard's formula.
#[inline(always)]
pub(crate) fn ch(x: u32x8, y: u32x8, z: u32x8) -> u32x8
    ensures { (j : ℕ) → j < 8 → slice_index result j ≡ ch (slice_index x j) (slice_index y j) (slice_index z j) }
{
    let differ = xor(y, z);
    let taken = and(x, differ);
    xor(z, taken)
}

// One round's `x ^ y` is the next round's `y ^ z`, so it is computed once.
#[inline(always)]
pub(crate) fn maj(x: u32x8, y: u32x8, z: u32x8) -> u32x8
    ensures { (j : ℕ) → j < 8 → slice_index result j ≡ maj (slice_index x j) (slice_index y j) (slice_index z j) }
{
    let one = xor(x, y);
    let two = xor(y, z);
    let both = and(one, two);
    xor(y, both)
}

#[inline(always)]
pub(crate) fn big_sigma0(x: u32x8) -> u32x8
    ensures { (j : ℕ) → j < 8 → slice_index result j ≡ big_sigma0 (slice_index x j) }
{
    let a = rotate_right(x, 2);
    let b = rotate_right(x, 13);
    let c = rotate_right(x, 22);
    xor(xor(a, b), c)
}

#[inline(always)]
pub(crate) fn big_sigma1(x: u32x8) -> u32x8
    ensures { (j : ℕ) → j < 8 → slice_index result j ≡ big_sigma1 (slice_index x j) }
{
    let a = rotate_right(x, 6);
    let b = rotate_right(x, 11);
    let c = rotate_right(x, 25);
    xor(xor(a, b), c)
}

#[inline(always)]
pub(crate) fn small_sigma0(x: u32x8) -> u32x8
    ensures { (j : ℕ) → j < 8 → slice_index result j ≡ small_sigma0 (slice_index x j) }
{
    let a = rotate_right(x, 7);
    let b = rotate_right(x, 18);
    let c = shift_right(x, 3);
    xor(xor(a, b), c)
}

#[inline(always)]
pub(crate) fn small_sigma1(x: u32x8) -> u32x8
    ensures { (j : ℕ) → j < 8 → slice_index result j ≡ small_sigma1 (slice_index x j) }
{
    let a = rotate_right(x, 17);
    let b = rotate_right(x, 19);
    let c = shift_right(x, 10);
    xor(xor(a, b), c)
}
