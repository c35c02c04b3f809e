//! The parity of a codeword: the remainder of the message's polynomial after division by the generator.
//!
//! A polynomial of degree at most 24 is an array of its 25 coefficients, the highest first.

ghost use Rattle.std.specs.Prelude.{◌≡◌, ℕ, ◌+◌, ◌<◌, ◌≤◌, ◌↔◌, ◌++◌, IsTrue, length, slice_index};
ghost use Rattle.reed_solomon.specs.Code.{syndrome, IsCodeword};
ghost use Rattle.reed_solomon.specs.Encoding.{IsGenerator, shifted_sum_at};

use crate::field::{multiply, power};

/// Returns the sum of `shifted` times x and `scaled` times `scale`.
pub(crate) fn shifted_sum(shifted: &[u8; 25], scaled: &[u8; 25], scale: u8) -> [u8; 25]
    ensures len { length result ≡ 25 }
    ensures value { (k : ℕ) → k < 25 → slice_index result k ≡ shifted_sum_at shifted.now scaled.now scale k }
{
    let mut sum = [0; 25];
    for k in 0..25_usize {
        let following = if k < 24 { shifted[k + 1] } else { 0 };
        sum[k] = following ^ multiply(scale, scaled[k]);
    }
    sum
}

/// Returns the monic polynomial whose roots are the first `degree` powers of x.
fn generator(degree: usize) -> [u8; 25]
    requires { degree ≤ 24 }
    ensures { IsGenerator degree result }
{
    let mut generator = [0; 25];
    generator[24] = 1;
    for root in 0..degree {
        generator = shifted_sum(&generator, &generator, power(root));
    }
    generator
}

/// Writes to `parity` the bytes that complete the message to a codeword. Both together have 255 bytes, of which 1 to
/// 24 are parity.
pub fn encode(message: &[u8], parity: &mut [u8])
    requires len { length message.now + length parity.old ≡ 255 }
    requires some { 0 < length parity.old }
    requires few { length parity.old ≤ 24 }
    ensures { IsCodeword (length parity.old) (message.now ++ parity.new) }
{
    let divisor = generator(parity.len());
    let first = 25 - parity.len();
    let mut rest = [0; 25];
    for byte in message {
        let scale = rest[first] ^ *byte;
        rest[first] = scale;
        rest = shifted_sum(&rest, &divisor, scale);
    }
    for k in 0..parity.len() {
        parity[k] = rest[first + k];
    }
}

/// Returns the value of a word's polynomial at the power `root` of x.
pub fn syndrome(word: &[u8], root: usize) -> u8
    requires len { length word.now ≡ 255 }
    requires root { root < 510 }
    ensures { result ≡ syndrome word.now root }
{
    let x = power(root);
    let mut value = 0;
    for byte in word {
        value = multiply(value, x) ^ *byte;
    }
    value
}

/// Returns whether a word of 255 bytes is a codeword with that many parity bytes.
pub fn is_codeword(word: &[u8], parity: usize) -> bool
    requires len { length word.now ≡ 255 }
    requires parity { parity ≤ 254 }
    ensures { IsTrue result ↔ IsCodeword parity word.now }
{
    for root in 0..parity {
        if syndrome(word, root) != 0 {
            return false;
        }
    }
    true
}
