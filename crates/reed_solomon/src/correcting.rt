//! Correction of wrong bytes at unknown positions.

ghost use Rattle.std.specs.Prelude.{◌≡◌, ◌≤◌, IsTrue, length};
ghost use Rattle.reed_solomon.specs.Correcting.{IsCorrected, differing, other};

use crate::encoding::is_codeword;
use crate::errors::{error_at, error_locator, error_values, odd_part, syndromes_of};

/// Writes to `corrected` the codeword that differs from a word at no more than half as many positions as there are parity bytes,
/// and returns whether one was found. There is at most one (`laws::near_codewords_are_equal`). If none was found, `corrected` may
/// hold anything.
pub fn correct(word: &[u8], parity: usize, corrected: &mut [u8]) -> bool
    requires len { length word.now ≡ 255 }
    requires room { length corrected.old ≡ 255 }
    requires few { parity ≤ 24 }
    ensures { IsTrue result → IsCorrected parity word.now corrected.new }
{
    guess(word, parity, corrected);
    if !is_codeword(corrected, parity) {
        return false;
    }
    if differing(word, corrected) > parity / 2 {
        return false;
    }
    true
}

// Writes to `corrected` what the codeword is if so few bytes are wrong. The caller checks it.
fn guess(word: &[u8], parity: usize, corrected: &mut [u8])
    requires len { length word.now ≡ 255 }
    requires room { length corrected.old ≡ 255 }
    requires few { parity ≤ 24 }
{
    let syndromes = syndromes_of(word, parity);
    let locator = error_locator(&syndromes, parity);
    let values = error_values(&locator, &syndromes, parity);
    let odd = odd_part(&locator);
    for i in 0..255_usize {
        corrected[i] = word[i] ^ error_at(&locator, &values, &odd, i);
    }
}

// Returns at how many positions two words differ.
fn differing(v: &[u8], w: &[u8]) -> usize
    requires left { length v.now ≡ 255 }
    requires right { length w.now ≡ 255 }
    ensures { result ≡ differing v.now w.now 255 }
{
    let mut count = 0;
    for i in 0..255_usize {
        count += other(v[i], w[i]);
    }
    count
}

// Returns 1 for two different bytes, and 0 for equal ones.
fn other(a: u8, b: u8) -> usize
    ensures value { result ≡ other a b }
    ensures most { result ≤ 1 }
{
    if a == b {
        return 0;
    }
    1
}
