//! SubBytes (FIPS 197, 5.1.1) as a circuit of 109 gates: the inverse is computed in the subfield of 16 elements, and
//! the last sums include the affine map except for its constant. A gate works on one bit of each of 256 bytes.

ghost use Rattle.std.specs.Prelude.{◌≡◌, ℕ, ◌<◌};
ghost use Rattle.aes_lanes.specs.Planes.{ArePlanes, lane_block};
ghost use Rattle.aes_lanes.specs.Circuit.{Computes, ComputesOfBoth, sums, combined, inverse_bits, products, substituted};
ghost use Rattle.aes_block.specs.Rounds.{sub_bytes};
ghost use Rattle.aes_lanes.specs.Constant.{add_constant};

use crate::planes::Planes;
use std::simd::prelude::*;

// Returns the linear combinations of the byte's bits that the other parts need.
#[inline(always)]
fn sums(x: &Planes) -> [u8x32; 20]
    ensures { Computes sums 8 x.now 20 result }
{
    let [x7, x6, x5, x4, x3, x2, x1, x0] = *x;
    let y14 = x3 ^ x5;
    let y13 = x0 ^ x6;
    let y9 = x0 ^ x3;
    let y8 = x0 ^ x5;
    let t0 = x1 ^ x2;
    let y1 = t0 ^ x7;
    let y4 = y1 ^ x3;
    let y12 = y13 ^ y14;
    let y2 = y1 ^ x0;
    let y5 = y1 ^ x6;
    let y3 = y5 ^ y8;
    let t1 = x4 ^ y12;
    let y15 = t1 ^ x5;
    let y20 = t1 ^ x1;
    let y6 = y15 ^ x7;
    let y10 = y15 ^ t0;
    let y11 = y20 ^ y9;
    let y7 = x7 ^ y11;
    let y17 = y10 ^ y11;
    let y16 = t0 ^ y11;
    let y18 = y3 ^ y6;
    [
        x7, y1, y2, y3, y4, y5, y6, y7, y8, y9, y10, y11, y12, y13, y14, y15, y16, y17, y18, y20,
    ]
}

// Returns the element of the subfield that is inverted. A product to which both its factors are added is a single OR
// gate.
#[inline(always)]
pub(crate) fn combined(sums: &[u8x32; 20]) -> [u8x32; 4]
    ensures { Computes combined 20 sums.now 4 result }
{
    let t2 = sums[12] & sums[15];
    let t3 = sums[3] & sums[6];
    let t4 = t3 ^ t2;
    let t5 = sums[4] & sums[0];
    let t6 = t5 ^ t2;
    let t7 = sums[13] | sums[16];
    let t8 = sums[5] & sums[1];
    let t9 = t8 ^ t7;
    let t10 = sums[2] & sums[7];
    let t11 = t10 ^ t7;
    let t12 = sums[9] & sums[11];
    let t13 = sums[14] & sums[17];
    let t14 = t13 ^ t12;
    let t15 = sums[8] | sums[10];
    let t16 = t15 ^ t12;
    let t17 = t4 ^ t14;
    let t18 = t6 ^ t16;
    let t19 = t9 ^ t14;
    let t20 = t11 ^ t16;
    let t21 = t17 ^ sums[19];
    let t24 = t20 ^ sums[18];
    [t21, t18, t19, t24]
}

// Returns the inverse in the subfield of 16 elements, and the sums of its bits: 19 gates, found by a search.
#[inline(always)]
pub(crate) fn inverse(combined: &[u8x32; 4]) -> [u8x32; 9]
    ensures { Computes inverse_bits 4 combined.now 9 result }
{
    let [t21, t22, t23, t24] = *combined;
    let t25 = t23 ^ t24;
    let t26 = t21 & t25;
    let t27 = t22 & t25;
    let t28 = t24 | t26;
    let t33 = t27 ^ t28;
    let t30 = t21 | t27;
    let t31 = t22 & t23;
    let t43 = t30 ^ t31;
    let t32 = t23 ^ t33;
    let t34 = t24 & t30;
    let t37 = t32 | t34;
    let t44 = t33 ^ t37;
    let t45 = t43 ^ t44;
    let t35 = t21 & t43;
    let t36 = t22 | t26;
    let t40 = t35 ^ t36;
    let t41 = t37 ^ t40;
    let t29 = t43 ^ t40;
    let t42 = t45 ^ t41;
    [t29, t33, t37, t40, t41, t42, t43, t44, t45]
}

// Returns the products of the inverse's bits and the byte's sums.
#[inline(always)]
pub(crate) fn products(sums: &[u8x32; 20], inverse: &[u8x32; 9]) -> [u8x32; 18]
    ensures { ComputesOfBoth products 20 sums.now 9 inverse.now 18 result }
{
    let [t29, t33, t37, t40, t41, t42, t43, t44, t45] = *inverse;
    let z0 = t44 & sums[15];
    let z1 = t37 & sums[6];
    let z2 = t33 & sums[0];
    let z3 = t43 & sums[16];
    let z4 = t40 & sums[1];
    let z5 = t29 & sums[7];
    let z6 = t42 & sums[11];
    let z7 = t45 & sums[17];
    let z8 = t41 & sums[10];
    let z9 = t44 & sums[12];
    let z10 = t37 & sums[3];
    let z11 = t33 & sums[4];
    let z12 = t43 & sums[13];
    let z13 = t40 & sums[5];
    let z14 = t29 & sums[2];
    let z15 = t42 & sums[9];
    let z16 = t45 & sums[14];
    let z17 = t41 & sums[8];
    [
        z0, z1, z2, z3, z4, z5, z6, z7, z8, z9, z10, z11, z12, z13, z14, z15, z16, z17,
    ]
}

// Returns the bits of SubBytes as sums of the products, without the constant 0x63.
#[inline(always)]
fn substituted(products: &[u8x32; 18]) -> Planes
    ensures { Computes substituted 18 products.now 8 result }
{
    let t46 = products[15] ^ products[16];
    let t47 = products[10] ^ products[11];
    let t48 = products[5] ^ products[13];
    let t49 = products[9] ^ products[10];
    let t50 = products[2] ^ products[12];
    let t51 = products[2] ^ products[5];
    let t52 = products[7] ^ products[8];
    let t53 = products[0] ^ products[3];
    let t54 = products[6] ^ products[7];
    let t55 = products[16] ^ products[17];
    let t56 = products[12] ^ t48;
    let t57 = t50 ^ t53;
    let t58 = products[4] ^ t46;
    let t59 = products[3] ^ t54;
    let t60 = t46 ^ t57;
    let t61 = products[14] ^ t57;
    let t62 = t52 ^ t58;
    let t63 = t49 ^ t58;
    let t64 = products[4] ^ t59;
    let t65 = t61 ^ t62;
    let t66 = products[1] ^ t63;
    let s0 = t59 ^ t63;
    let s6 = t56 ^ t62;
    let s7 = t48 ^ t60;
    let t67 = t64 ^ t65;
    let s3 = t53 ^ t66;
    let s4 = t51 ^ t66;
    let s5 = t47 ^ t65;
    let s1 = t64 ^ s3;
    let s2 = t55 ^ t67;
    [s7, s6, s5, s4, s3, s2, s1, s0]
}

// Applies SubBytes (5.1.1) without its constant, which is added with the round key.
#[inline(always)]
pub(crate) fn sub_bytes_without_constant(q: &Planes) -> Planes
    requires { ArePlanes q.now }
    ensures planes { ArePlanes result }
    ensures blocks { (j : ℕ) → j < 16 → lane_block result j ≡ add_constant (sub_bytes (lane_block q.now j)) }
{
    let sums = sums(q);
    let combined = combined(&sums);
    let inverse = inverse(&combined);
    let products = products(&sums, &inverse);
    substituted(&products)
}
