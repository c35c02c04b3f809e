//! ShiftRows and its inverse (FIPS 197, 5.1.2 and 5.3.1) on planes, as permutations of lanes.

ghost use Rattle.std.specs.Prelude.{◌≡◌, ℕ, ◌<◌, length, slice_index};
ghost use Rattle.aes_block.specs.Rounds.{shift_rows, inv_shift_rows};
ghost use Rattle.aes_lanes.specs.Planes.{ArePlanes, lane_block, AreMoved, lane_shifted, lane_unshifted};

use crate::planes::{Planes, each};
use std::simd::prelude::*;

#[inline(always)]
fn lanes_shifted(x: u8x32) -> u8x32
    ensures len { length result ≡ 32 }
    ensures lanes { (p : ℕ) → p < 32 → slice_index result p ≡ slice_index x (lane_shifted p) }
{
    x.swizzle([
        0, 5, 10, 15, 4, 9, 14, 3, 8, 13, 2, 7, 12, 1, 6, 11, 16, 21, 26, 31, 20, 25, 30, 19, 24,
        29, 18, 23, 28, 17, 22, 27,
    ])
}

#[inline(always)]
fn lanes_unshifted(x: u8x32) -> u8x32
    ensures len { length result ≡ 32 }
    ensures lanes { (p : ℕ) → p < 32 → slice_index result p ≡ slice_index x (lane_unshifted p) }
{
    x.swizzle([
        0, 13, 10, 7, 4, 1, 14, 11, 8, 5, 2, 15, 12, 9, 6, 3, 16, 29, 26, 23, 20, 17, 30, 27, 24,
        21, 18, 31, 28, 25, 22, 19,
    ])
}

#[inline(always)]
fn move_shifted(q: &Planes) -> Planes
    ensures { AreMoved lane_shifted q.now result }
{
    each(q, lanes_shifted)
}

#[inline(always)]
fn move_unshifted(q: &Planes) -> Planes
    ensures { AreMoved lane_unshifted q.now result }
{
    each(q, lanes_unshifted)
}

// Applies ShiftRows (5.1.2).
#[inline(always)]
pub(crate) fn shift_rows(q: &Planes) -> Planes
    ensures planes { ArePlanes result }
    ensures blocks { (j : ℕ) → j < 16 → lane_block result j ≡ shift_rows (lane_block q.now j) }
{
    move_shifted(q)
}

// Applies InvShiftRows (5.3.1).
#[inline(always)]
pub(crate) fn inv_shift_rows(q: &Planes) -> Planes
    ensures planes { ArePlanes result }
    ensures blocks { (j : ℕ) → j < 16 → lane_block result j ≡ inv_shift_rows (lane_block q.now j) }
{
    move_unshifted(q)
}
