//! InvSubBytes (FIPS 197, 5.3.2) as a circuit. Its middle parts are those of SubBytes; its first sums include the
//! inverse of the affine map, and its last sums give the bits of the inverse.

ghost use Rattle.std.specs.Prelude.{◌≡◌, ℕ, ◌<◌};
ghost use Rattle.aes_lanes.specs.Planes.{ArePlanes, lane_block};
ghost use Rattle.aes_lanes.specs.Circuit.{Computes};
ghost use Rattle.aes_lanes.specs.Constant.{add_constant};
ghost use Rattle.aes_lanes.specs.InverseCircuit.{inverse_sums, inverse_substituted};
ghost use Rattle.aes_block.specs.Rounds.{inv_sub_bytes};

use crate::circuit::{combined, inverse, products};
use crate::planes::Planes;
use std::simd::prelude::*;

// Returns the linear combinations that the other parts need, of the bits of a byte to which 0x63 has been added.
#[inline(always)]
fn inverse_sums(x: &Planes) -> [u8x32; 20]
    ensures { Computes inverse_sums 8 x.now 20 result }
{
    let [b0, b1, b2, b3, b4, b5, b6, b7] = *x;
    let y9 = b3 ^ b4;
    let y5 = b4 ^ b6;
    let y8 = b6 ^ b7;
    let y1 = b0 ^ y9;
    let y6 = b4 ^ y8;
    let y3 = b4 ^ b7;
    let y19 = b0 ^ b3;
    let y14 = b3 ^ y6;
    let y13 = b1 ^ y1;
    let y2 = y5 ^ y13;
    let y4 = y9 ^ y2;
    let y10 = y8 ^ y19;
    let y12 = y3 ^ y4;
    let y7 = b5 ^ y4;
    let y16 = y1 ^ y7;
    let a0 = b2 ^ b7;
    let y20 = y2 ^ a0;
    let y0 = b5 ^ a0;
    let y11 = y9 ^ y20;
    let y17 = y10 ^ y11;
    let y15 = y6 ^ y0;
    [
        y0, y1, y2, y3, y4, y5, y6, y7, y8, y9, y10, y11, y12, y13, y14, y15, y16, y17, b6, y20,
    ]
}

// Returns the bits of InvSubBytes as sums of the products.
#[inline(always)]
fn inverse_substituted(products: &[u8x32; 18]) -> Planes
    ensures { Computes inverse_substituted 18 products.now 8 result }
{
    let c0 = products[6] ^ products[15];
    let c1 = products[12] ^ c0;
    let c2 = products[16] ^ c1;
    let c3 = products[8] ^ products[13];
    let c4 = products[1] ^ products[4];
    let c5 = products[2] ^ products[10];
    let c6 = c2 ^ c3;
    let c7 = products[14] ^ c5;
    let c8 = products[7] ^ products[13];
    let c9 = products[5] ^ c6;
    let c10 = products[3] ^ c2;
    let c11 = products[9] ^ products[17];
    let c12 = c4 ^ c7;
    let c13 = products[4] ^ c8;
    let c14 = products[3] ^ c3;
    let c15 = products[11] ^ c11;
    let c16 = products[5] ^ c5;
    let c17 = products[11] ^ c1;
    let c18 = products[2] ^ c6;
    let c19 = products[8] ^ c12;
    let c20 = products[0] ^ products[17];
    let c21 = products[0] ^ c4;
    let c22 = c11 ^ c14;
    let c23 = c17 ^ c20;
    let s0 = products[15] ^ c15;
    let c24 = c0 ^ c22;
    let s2 = c9 ^ c21;
    let c25 = c13 ^ c16;
    let s1 = c10 ^ c13;
    let c26 = products[11] ^ c19;
    let s3 = c23 ^ c25;
    let s6 = c12 ^ c24;
    let s4 = products[0] ^ c18;
    let s7 = products[3] ^ c9;
    let s5 = c10 ^ c26;
    [s0, s1, s2, s3, s4, s5, s6, s7]
}

// Applies InvSubBytes (5.3.2) to states that are stored with the constant of SubBytes added.
#[inline(always)]
pub(crate) fn inv_sub_bytes_with_constant(q: &Planes) -> Planes
    requires { ArePlanes q.now }
    ensures planes { ArePlanes result }
    ensures blocks { (j : ℕ) → j < 16 → lane_block result j ≡ inv_sub_bytes (add_constant (lane_block q.now j)) }
{
    let sums = inverse_sums(q);
    let combined = combined(&sums);
    let inverse = inverse(&combined);
    let products = products(&sums, &inverse);
    inverse_substituted(&products)
}
