//! MixColumns and its inverse (FIPS 197, 5.1.3 and 5.3.3) on planes.
//!
//! No round but the last moves rows. Until then, the state is stored with `shifts` ShiftRows pending, and a column is
//! gathered from the lanes that hold its bytes.

ghost use Rattle.std.specs.Prelude.{◌≡◌, ℕ, ◌<◌, length, slice_index};
ghost use Rattle.aes_block.specs.Field.{xtimes};
ghost use Rattle.aes_block.specs.Rounds.{mix_columns, inv_mix_columns};
ghost use Rattle.aes_lanes.specs.Planes.{ArePlanes, byte_of, AreMoved, lane_below};
ghost use Rattle.aes_lanes.specs.Rounds.{EachGoesThrough};

use crate::planes::{Planes, each};
use crate::sums::add;
use std::simd::prelude::*;

// Moves to each lane the byte one row below in the same column. The suffix of the variants is the number of pending
// ShiftRows.
//
// The lane numbers are constants because only some compilers emit a single instruction for a table that is read by an
// index.
#[inline(always)]
fn next_row(x: u8x32) -> u8x32
    ensures len { length result ≡ 32 }
    ensures lanes { (p : ℕ) → p < 32 → slice_index result p ≡ slice_index x (lane_below 1 0 p) }
{
    x.swizzle([
        1, 2, 3, 0, 5, 6, 7, 4, 9, 10, 11, 8, 13, 14, 15, 12, 17, 18, 19, 16, 21, 22, 23, 20, 25,
        26, 27, 24, 29, 30, 31, 28,
    ])
}

#[inline(always)]
fn next_row_after_1(x: u8x32) -> u8x32
    ensures len { length result ≡ 32 }
    ensures lanes { (p : ℕ) → p < 32 → slice_index result p ≡ slice_index x (lane_below 1 1 p) }
{
    x.swizzle([
        5, 6, 7, 4, 9, 10, 11, 8, 13, 14, 15, 12, 1, 2, 3, 0, 21, 22, 23, 20, 25, 26, 27, 24, 29,
        30, 31, 28, 17, 18, 19, 16,
    ])
}

#[inline(always)]
fn next_row_after_2(x: u8x32) -> u8x32
    ensures len { length result ≡ 32 }
    ensures lanes { (p : ℕ) → p < 32 → slice_index result p ≡ slice_index x (lane_below 1 2 p) }
{
    x.swizzle([
        9, 10, 11, 8, 13, 14, 15, 12, 1, 2, 3, 0, 5, 6, 7, 4, 25, 26, 27, 24, 29, 30, 31, 28, 17,
        18, 19, 16, 21, 22, 23, 20,
    ])
}

#[inline(always)]
fn next_row_after_3(x: u8x32) -> u8x32
    ensures len { length result ≡ 32 }
    ensures lanes { (p : ℕ) → p < 32 → slice_index result p ≡ slice_index x (lane_below 1 3 p) }
{
    x.swizzle([
        13, 14, 15, 12, 1, 2, 3, 0, 5, 6, 7, 4, 9, 10, 11, 8, 29, 30, 31, 28, 17, 18, 19, 16, 21,
        22, 23, 20, 25, 26, 27, 24,
    ])
}

// Moves to each lane the byte two rows below in the same column. ShiftRows twice moves that row by four columns, so
// there are only two variants.
#[inline(always)]
fn opposite_row(x: u8x32) -> u8x32
    ensures len { length result ≡ 32 }
    ensures lanes { (p : ℕ) → p < 32 → slice_index result p ≡ slice_index x (lane_below 2 0 p) }
{
    x.swizzle([
        2, 3, 0, 1, 6, 7, 4, 5, 10, 11, 8, 9, 14, 15, 12, 13, 18, 19, 16, 17, 22, 23, 20, 21, 26,
        27, 24, 25, 30, 31, 28, 29,
    ])
}

#[inline(always)]
fn opposite_row_after_1(x: u8x32) -> u8x32
    ensures len { length result ≡ 32 }
    ensures lanes { (p : ℕ) → p < 32 → slice_index result p ≡ slice_index x (lane_below 2 1 p) }
{
    x.swizzle([
        10, 11, 8, 9, 14, 15, 12, 13, 2, 3, 0, 1, 6, 7, 4, 5, 26, 27, 24, 25, 30, 31, 28, 29, 18,
        19, 16, 17, 22, 23, 20, 21,
    ])
}

#[inline(always)]
fn move_below_1(q: &Planes, shifts: usize) -> Planes
    requires { shifts < 4 }
    ensures { AreMoved (lane_below 1 shifts) q.now result }
{
    if shifts == 0 {
        each(q, next_row)
    } else if shifts == 1 {
        each(q, next_row_after_1)
    } else if shifts == 2 {
        each(q, next_row_after_2)
    } else {
        each(q, next_row_after_3)
    }
}

#[inline(always)]
fn move_below_2(q: &Planes, shifts: usize) -> Planes
    requires { shifts < 4 }
    ensures { AreMoved (lane_below 2 shifts) q.now result }
{
    if shifts % 2 == 0 {
        each(q, opposite_row)
    } else {
        each(q, opposite_row_after_1)
    }
}

// Multiplies each byte by x (4.2).
#[inline(always)]
fn double(q: &Planes) -> Planes
    requires { ArePlanes q.now }
    ensures planes { ArePlanes result }
    ensures bytes { (p b : ℕ) → p < 32 → b < 8 → byte_of result p b ≡ xtimes (byte_of q.now p b) }
{
    let top = q[7];
    [
        top,
        q[0] ^ top,
        q[1],
        q[2] ^ top,
        q[3] ^ top,
        q[4],
        q[5],
        q[6],
    ]
}

// Applies MixColumns (5.1.3): twice the sum of a byte and the next, plus the next three bytes.
#[inline(always)]
pub(crate) fn mix_columns(q: &Planes, shifts: usize) -> Planes
    requires planes { ArePlanes q.now }
    requires shifts { shifts < 4 }
    ensures planes { ArePlanes result }
    ensures blocks { EachGoesThrough mix_columns shifts q.now result }
{
    let next = move_below_1(q, shifts);
    let pairs = add(q, &next);
    let doubled = double(&pairs);
    let three = add(&doubled, &next);
    let others = move_below_2(&pairs, shifts);
    add(&three, &others)
}

// Applies InvMixColumns (5.3.3): adds to each byte four times the sum of the byte and the one two rows below, then
// applies MixColumns.
#[inline(always)]
pub(crate) fn inv_mix_columns(q: &Planes, shifts: usize) -> Planes
    requires planes { ArePlanes q.now }
    requires shifts { shifts < 4 }
    ensures planes { ArePlanes result }
    ensures blocks { EachGoesThrough inv_mix_columns shifts q.now result }
{
    let others = move_below_2(q, shifts);
    let pairs = add(q, &others);
    let twice = double(&pairs);
    let four = double(&twice);
    let prepared = add(q, &four);
    mix_columns(&prepared, shifts)
}
