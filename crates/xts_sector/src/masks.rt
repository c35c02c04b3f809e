//! The tweaks T (IEEE 1619-2007, 5.3.1) of the blocks of a part, called masks here, and their addition to the blocks.

ghost use Rattle.std.specs.Prelude.{◌≡◌, ◌≢◌, ℕ, ◌+◌, ◌-◌, ◌*◌, ◌/◌, ◌%◌, ◌<◌, ◌++◌, length};
ghost use Rattle.aes_block.specs.Blocks.{block, joined};
ghost use Rattle.xts_sector.specs.Blocks.{add_blocks};
ghost use Rattle.xts_sector.specs.Masks.{HoldMasks};
ghost use Rattle.xts_sector.specs.Tweak.{number_block, times_alpha_power};

use crate::tweak::{Block, times_alpha};
use std::simd::prelude::*;

/// The size of a part of a unit in bytes. Masks are computed for a whole part even if fewer blocks remain.
pub const PART: usize = 512;

/// The masks of the 32 blocks of a part, stored consecutively.
pub type Masks = [u8; PART];

/// Writes two masks, given as a vector.
#[inline(always)]
fn write_two_masks(two: u8x32, masks: &mut [u8])
    requires { length masks.old ≡ 32 }
    ensures { masks.new ≡ two }
{
    two.copy_to_slice(masks);
}

/// Writes two masks, given as numbers.
#[inline(always)]
fn write_two_tweaks(first: u128, second: u128, masks: &mut [u8])
    requires { length masks.old ≡ 32 }
    ensures { masks.new ≡ number_block first ++ number_block second }
{
    let low = (first % 0x1_0000_0000_0000_0000) as u64;
    let high = (first >> 64) as u64;
    let second_low = (second % 0x1_0000_0000_0000_0000) as u64;
    let second_high = (second >> 64) as u64;
    let halves = u64x4::from_array([low, high, second_low, second_high]);
    write_two_masks(halves.to_le_bytes(), masks);
}

/// Writes the masks of the first eight blocks; `first` is the first.
fn write_first_masks(first: u128, masks: &mut Masks)
    ensures { (j : ℕ) → j < 8 → block masks.new j ≡ times_alpha_power j (number_block first) }
{
    let mut tweak = first;
    for i in 0..4_usize {
        let second = times_alpha(tweak);
        write_two_tweaks(tweak, second, &mut masks[32 * i..32 * i + 32]);
        tweak = times_alpha(second);
    }
}

/// Returns the products of two masks by α^8 (5.2). The shuffle rotates each mask by one byte, which adds the product
/// of the top byte by 1; the shifts add its products by x, x^2 and x^7.
#[inline(always)]
fn two_products(masks: &[u8]) -> u8x32
    requires { length masks.now ≡ 32 }
    ensures { result ≡ joined (λ j. times_alpha_power 8 (block masks.now j)) 2 }
{
    let turned = u8x32::from_slice(masks).swizzle([
        15, 0, 1, 2, 3, 4, 5, 6, 7, 8, 9, 10, 11, 12, 13, 14, 31, 16, 17, 18, 19, 20, 21, 22, 23,
        24, 25, 26, 27, 28, 29, 30,
    ]);
    let halves = u64x4::from_le_bytes(turned);
    let top = halves & u64x4::from_array([0xff, 0, 0xff, 0]);
    let products = halves
        ^ (top << u64x4::splat(1))
        ^ (top << u64x4::splat(2))
        ^ (top << u64x4::splat(7));
    products.to_le_bytes()
}

/// Overwrites the first eight masks with those of the eight blocks after the part.
fn write_next_masks(masks: &mut Masks)
    ensures { (j : ℕ) → j < 8 → block masks.new j ≡ times_alpha_power 8 (block masks.old (24 + j)) }
{
    for i in 0..4_usize {
        let two = two_products(&masks[32 * i + 384..32 * i + 416]);
        write_two_masks(two, &mut masks[32 * i..32 * i + 32]);
    }
}

/// Computes all masks of a part from its first eight.
fn extend_masks(masks: &mut Masks)
    ensures { masks.new ≡ joined (λ j. times_alpha_power (8 * (j / 8)) (block masks.old (j % 8))) 32 }
{
    for i in 0..12_usize {
        let two = two_products(&masks[32 * i..32 * i + 32]);
        write_two_masks(two, &mut masks[32 * i + 128..32 * i + 160]);
    }
}

/// Computes the masks of part `i` of the unit whose first block has the tweak `first`. Part 0 is computed from
/// `first`, any other from the masks of the previous part.
pub fn make_masks(first: &Block, i: usize, masks: &mut Masks)
    ensures { (i ≢ 0 → HoldMasks first.now (i - 1) masks.old) → HoldMasks first.now i masks.new }
{
    if i == 0 {
        write_first_masks(u128::from_le_bytes(*first), masks);
    } else {
        write_next_masks(masks);
    }
    extend_masks(masks);
}

/// Adds a mask to its block.
#[inline(always)]
fn add_mask(block: &mut [u8], mask: &[u8])
    requires block { length block.old ≡ 16 }
    requires mask { length mask.now ≡ 16 }
    ensures { block.new ≡ add_blocks block.old mask.now }
{
    let sum = u8x16::from_slice(block) ^ u8x16::from_slice(mask);
    sum.copy_to_slice(block);
}

/// Adds two masks to their blocks.
#[inline(always)]
fn add_two_masks(blocks: &mut [u8], masks: &[u8])
    requires blocks { length blocks.old ≡ 32 }
    requires masks { length masks.now ≡ 32 }
    ensures { blocks.new ≡ joined (λ j. add_blocks (block blocks.old j) (block masks.now j)) 2 }
{
    let sum = u8x32::from_slice(blocks) ^ u8x32::from_slice(masks);
    sum.copy_to_slice(blocks);
}

/// Adds to each block its mask, two blocks at a time.
pub fn add_masks(blocks: &mut [u8], masks: &[u8])
    requires same { length masks.now ≡ length blocks.old }
    requires whole { length blocks.old % 16 ≡ 0 }
    ensures { blocks.new ≡ joined (λ j. add_blocks (block blocks.old j) (block masks.now j)) (length blocks.old / 16) }
{
    let pairs = blocks.len() / 32;
    for i in 0..pairs {
        add_two_masks(
            &mut blocks[32 * i..32 * i + 32],
            &masks[32 * i..32 * i + 32],
        );
    }
    for j in 2 * pairs..blocks.len() / 16 {
        add_mask(
            &mut blocks[16 * j..16 * j + 16],
            &masks[16 * j..16 * j + 16],
        );
    }
}
