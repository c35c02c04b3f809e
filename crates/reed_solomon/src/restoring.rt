//! Recovery of bytes erased at known positions from the other bytes.

ghost use Rattle.std.specs.Prelude.{◌≡◌, ◌<◌, length, slice_index, EachIndex};
ghost use Rattle.reed_solomon.specs.Factors.{erasure_factor};
ghost use Rattle.reed_solomon.specs.Restoring.{weight, combination, AgreesOutside, SumUpToByte, IsRestored};

use crate::field::{inverse, multiply, power};

/// Returns the value at the locator of position `i` of the polynomial whose roots are the locators of the erasures
/// other than `place`.
fn weight(lost: &[usize], place: usize, i: usize) -> u8
    requires i_in_word { i < 255 }
    requires lost_in_word { EachIndex lost.now (λ k. slice_index lost.now k < 255) }
    ensures { result ≡ weight lost.now place (length lost.now) i }
{
    let mut product = 1;
    for other in lost {
        if *other != place {
            product = multiply(product, power(254 - i) ^ power(254 - *other));
        }
    }
    product
}

/// Returns the factors that recover the byte of a codeword at `place`: the sum of the bytes times their factors. The
/// factors of `place` and of the erasures are 0.
pub fn factors(lost: &[usize], place: usize) -> [u8; 255]
    requires place_in_word { place < 255 }
    requires lost_in_word { EachIndex lost.now (λ k. slice_index lost.now k < 255) }
    ensures len { length result ≡ 255 }
    ensures restore { SumUpToByte lost.now place result }
    ensures skip_place { slice_index result place ≡ 0 }
    ensures skip_lost { EachIndex lost.now (λ k. slice_index result (slice_index lost.now k) ≡ 0) }
{
    let scale = inverse(weight(lost, place, place));
    let mut factors = [0; 255];
    for i in 0..255_usize {
        if i != place {
            factors[i] = multiply(weight(lost, place, i), scale);
        }
    }
    factors
}

/// Returns the factor of position `i` in the sum of a codeword's bytes that is the byte at `place`; 0 for `place` and the other erasures.
pub fn erasure_factor(lost: &[usize], place: usize, i: usize) -> u8
    requires place_in_word { place < 255 }
    requires i_in_word { i < 255 }
    requires lost_in_word { EachIndex lost.now (λ k. slice_index lost.now k < 255) }
    ensures { result ≡ erasure_factor lost.now place i }
{
    if i == place {
        return 0;
    }
    multiply(weight(lost, place, i), inverse(weight(lost, place, place)))
}

/// Returns the sum of a word's bytes, each times its factor.
pub fn combination(factors: &[u8; 255], word: &[u8]) -> u8
    requires { length word.now ≡ 255 }
    ensures { result ≡ combination factors.now word.now }
{
    let mut sum = 0;
    for i in 0..255_usize {
        sum ^= multiply(factors[i], word[i]);
    }
    sum
}

/// Recovers the bytes at the positions in `lost`; the other bytes stay unchanged.
///
/// If the other bytes are those of a codeword with at least as many parity bytes as there are erasures, the result is
/// that codeword.
pub fn restore(word: &mut [u8], lost: &[usize])
    requires len { length word.old ≡ 255 }
    requires lost_in_word { EachIndex lost.now (λ k. slice_index lost.now k < 255) }
    ensures kept { AgreesOutside lost.now word.new word.old }
    ensures restored { IsRestored lost.now word.old word.new }
{
    for place in lost {
        let found = factors(lost, *place);
        word[*place] = combination(&found, word);
    }
}
