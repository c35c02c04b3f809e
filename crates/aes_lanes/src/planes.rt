//! Sixteen blocks as eight planes: plane k holds bit k of each byte.

ghost use Rattle.std.specs.Prelude.{◌≡◌, ℕ, ◌+◌, ◌*◌, ◌<◌, ◌≤◌, length, slice_index};
ghost use Rattle.aes_block.specs.Blocks.{block, joined};
ghost use Rattle.aes_lanes.specs.Planes.{plane, lane, ArePlanes, IsVector, first_swapped, second_swapped, AreExchanged, AreTurned, lane_block};

use std::simd::prelude::*;

pub(crate) type Planes = [u8x32; 8];

// Applies a function to each plane.
#[inline(always)]
pub(crate) fn each<F: Fn(u8x32) -> u8x32>(q: &Planes, lanes: F) -> Planes
    requires { (k : ℕ) → k < 8 → F.pre lanes (plane q.now k) }
    ensures { (k : ℕ) → k < 8 → F.post lanes (plane q.now k) (plane result k) }
{
    let m0 = lanes(q[0]);
    let m1 = lanes(q[1]);
    let m2 = lanes(q[2]);
    let m3 = lanes(q[3]);
    let m4 = lanes(q[4]);
    let m5 = lanes(q[5]);
    let m6 = lanes(q[6]);
    let m7 = lanes(q[7]);
    [m0, m1, m2, m3, m4, m5, m6, m7]
}

// Swaps the bits of `b` selected by `mask` with the bits of `a` that are `by` positions higher.
#[inline(always)]
fn swap_bits(a: u8x32, b: u8x32, by: u8, mask: u8) -> [u8x32; 2]
    requires { by < 8 }
    ensures vectors { IsVector (plane result 0) × IsVector (plane result 1) }
    ensures first { (p : ℕ) → p < 32 → lane result 0 p ≡ first_swapped by mask (slice_index a p) (slice_index b p) }
    ensures second { (p : ℕ) → p < 32 → lane result 1 p ≡ second_swapped by mask (slice_index a p) (slice_index b p) }
{
    let differ = ((a >> u8x32::splat(by)) ^ b) & u8x32::splat(mask);
    [a ^ (differ << u8x32::splat(by)), b ^ differ]
}

#[inline(always)]
fn exchange_1(q: &Planes) -> Planes
    ensures { AreExchanged 1 q.now result }
{
    let ab = swap_bits(q[0], q[1], 1, 0x55);
    let cd = swap_bits(q[2], q[3], 1, 0x55);
    let ef = swap_bits(q[4], q[5], 1, 0x55);
    let gh = swap_bits(q[6], q[7], 1, 0x55);
    [ab[0], ab[1], cd[0], cd[1], ef[0], ef[1], gh[0], gh[1]]
}

#[inline(always)]
fn exchange_2(q: &Planes) -> Planes
    ensures { AreExchanged 2 q.now result }
{
    let ac = swap_bits(q[0], q[2], 2, 0x33);
    let bd = swap_bits(q[1], q[3], 2, 0x33);
    let eg = swap_bits(q[4], q[6], 2, 0x33);
    let fh = swap_bits(q[5], q[7], 2, 0x33);
    [ac[0], bd[0], ac[1], bd[1], eg[0], fh[0], eg[1], fh[1]]
}

#[inline(always)]
fn exchange_4(q: &Planes) -> Planes
    ensures { AreExchanged 4 q.now result }
{
    let ae = swap_bits(q[0], q[4], 4, 0x0f);
    let bf = swap_bits(q[1], q[5], 4, 0x0f);
    let cg = swap_bits(q[2], q[6], 4, 0x0f);
    let dh = swap_bits(q[3], q[7], 4, 0x0f);
    [ae[0], bf[0], cg[0], dh[0], ae[1], bf[1], cg[1], dh[1]]
}

// Transposes the bits of each lane: bit i of vector k becomes bit k of vector i.
#[inline(always)]
pub(crate) fn turn(q: &Planes) -> Planes
    ensures { AreTurned q.now result }
{
    let ones = exchange_1(q);
    let twos = exchange_2(&ones);
    exchange_4(&twos)
}

#[inline(always)]
fn vector_at(blocks: &[u8], i: usize) -> u8x32
    requires { 32 * i + 32 ≤ length blocks.now }
    ensures len { length result ≡ 32 }
    ensures lanes { (p : ℕ) → p < 32 → slice_index result p ≡ slice_index blocks.now (32 * i + p) }
{
    u8x32::from_slice(&blocks[32 * i..32 * i + 32])
}

// Returns the planes of sixteen blocks.
#[inline(always)]
pub(crate) fn planes_of(blocks: &[u8]) -> Planes
    requires { length blocks.now ≡ 256 }
    ensures planes { ArePlanes result }
    ensures blocks { (j : ℕ) → j < 16 → lane_block result j ≡ block blocks.now j }
{
    let v0 = vector_at(blocks, 0);
    let v1 = vector_at(blocks, 1);
    let v2 = vector_at(blocks, 2);
    let v3 = vector_at(blocks, 3);
    let v4 = vector_at(blocks, 4);
    let v5 = vector_at(blocks, 5);
    let v6 = vector_at(blocks, 6);
    let v7 = vector_at(blocks, 7);
    turn(&[v0, v1, v2, v3, v4, v5, v6, v7])
}

#[inline(always)]
fn write_vector(x: u8x32, bytes: &mut [u8])
    requires { length bytes.old ≡ 32 }
    ensures { bytes.new ≡ x }
{
    x.copy_to_slice(bytes);
}

// Writes the sixteen blocks of the planes.
#[inline(always)]
pub(crate) fn write_blocks(planes: &Planes, blocks: &mut [u8])
    requires { length blocks.old ≡ 256 }
    ensures { blocks.new ≡ joined (lane_block planes.now) 16 }
{
    let vectors = turn(planes);
    for i in 0..8_usize {
        write_vector(vectors[i], &mut blocks[32 * i..32 * i + 32]);
    }
}
