//! Sums of bytes, by exclusive-or.

ghost use Rattle.std.specs.Prelude.{◌≡◌, ◌*◌, length, slice_index};
ghost use Rattle.reed_solomon.specs.Products.{AreAdded};
ghost use Rattle.reed_solomon.specs.Sums.{part_combination, part_sum};

use crate::field::multiply;

/// Adds to each byte of `sums` the parity of the codeword with its index: `count` bytes, which are stored together.
pub fn add_parity(parity: &[u8], count: usize, sums: &mut [u8])
    requires { length parity.now ≡ length sums.old * count }
    ensures { AreAdded (part_sum count parity.now) sums.old sums.new }
{
    for c in 0..sums.len() {
        let mut sum = 0;
        for k in 0..count {
            sum ^= parity[c * count + k];
        }
        sums[c] ^= sum;
    }
}

/// Adds to each byte of `sums` the parity of the codeword with its index: one byte for each factor, times that factor.
/// The parity bytes of a codeword are stored together.
pub fn add_parity_products(factors: &[u8], parity: &[u8], sums: &mut [u8])
    requires { length parity.now ≡ length sums.old * length factors.now }
    ensures { AreAdded (part_combination (slice_index factors.now) (length factors.now) parity.now) sums.old sums.new }
{
    let count = factors.len();
    for c in 0..sums.len() {
        let mut sum = 0;
        for k in 0..count {
            sum ^= multiply(factors[k], parity[c * count + k]);
        }
        sums[c] ^= sum;
    }
}
