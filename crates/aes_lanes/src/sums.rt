//! Sums of planes: AddRoundKey (FIPS 197, 5.1.4) and the constant of SubBytes.

ghost use Rattle.std.specs.Prelude.{◌≡◌, ℕ, ◌<◌, List, length, slice_index, bit_xor};
ghost use Rattle.aes_lanes.specs.Planes.{ArePlanes, lane_block, AreSums};
ghost use Rattle.aes_lanes.specs.Constant.{add_constant};
ghost use Rattle.aes_lanes.specs.Keys.{AreOneBlock};
ghost use Rattle.aes_lanes.specs.Rounds.{IsKeyed};

use crate::planes::Planes;
use std::simd::prelude::*;

#[inline(always)]
fn xor(a: u8x32, b: u8x32) -> u8x32
    ensures len { length result ≡ 32 }
    ensures lanes { (p : ℕ) → p < 32 → slice_index result p ≡ bit_xor (slice_index a p) (slice_index b p) }
{
    a ^ b
}

#[inline(always)]
pub(crate) fn add(a: &Planes, b: &Planes) -> Planes
    ensures { AreSums a.now b.now result }
{
    let s0 = xor(a[0], b[0]);
    let s1 = xor(a[1], b[1]);
    let s2 = xor(a[2], b[2]);
    let s3 = xor(a[3], b[3]);
    let s4 = xor(a[4], b[4]);
    let s5 = xor(a[5], b[5]);
    let s6 = xor(a[6], b[6]);
    let s7 = xor(a[7], b[7]);
    [s0, s1, s2, s3, s4, s5, s6, s7]
}

// Applies AddRoundKey (5.1.4). The state and the round key must have the same number of ShiftRows pending.
#[inline(always)]
pub(crate) fn add_round_key(q: &Planes, key: &Planes) -> Planes
    ensures planes { ArePlanes result }
    ensures blocks { (s : ℕ) (k : List ℕ) → AreOneBlock s k key.now → IsKeyed s k q.now result }
{
    add(q, key)
}

// Adds the constant of SubBytes to each byte.
#[inline(always)]
pub(crate) fn add_constant(q: &Planes) -> Planes
    requires { ArePlanes q.now }
    ensures planes { ArePlanes result }
    ensures blocks { (j : ℕ) → j < 16 → lane_block result j ≡ add_constant (lane_block q.now j) }
{
    let ones = u8x32::splat(0xff);
    [
        q[0] ^ ones,
        q[1] ^ ones,
        q[2],
        q[3],
        q[4],
        q[5] ^ ones,
        q[6] ^ ones,
        q[7],
    ]
}
