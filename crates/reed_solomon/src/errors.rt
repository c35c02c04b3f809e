//! The errors of a word, if they are few: their positions by the algorithm of Berlekamp and Massey and Chien's search, their values by
//! Forney's formula. No clause states this, since `correct` checks the result.
//!
//! A polynomial of degree at most 24 is an array of its 25 coefficients, the highest first.

ghost use Rattle.std.specs.Prelude.{◌≡◌, ◌<◌, ◌≤◌, length};

use crate::encoding::{shifted_sum, syndrome};
use crate::field::{inverse, multiply, power};

/// Returns the values of a word's polynomial at the first `parity` powers of x.
pub(crate) fn syndromes_of(word: &[u8], parity: usize) -> [u8; 24]
    requires len { length word.now ≡ 255 }
    requires few { parity ≤ 24 }
    ensures len { length result ≡ 24 }
{
    let mut syndromes = [0; 24];
    for root in 0..parity {
        syndromes[root] = syndrome(word, root);
    }
    syndromes
}

/// Returns the polynomial of least degree whose roots are the inverses of the locators of the wrong positions, times some factor.
pub(crate) fn error_locator(syndromes: &[u8; 24], parity: usize) -> [u8; 25]
    requires { parity ≤ 24 }
    ensures { length result ≡ 25 }
{
    let mut locator = [0; 25];
    locator[24] = 1;
    let mut previous = [0; 25];
    previous[24] = 1;
    let mut degree = 0;
    for n in 0..parity {
        let scale = inverse_or_zero(coefficient(&locator, syndromes, n));
        let longer = next_degree(degree, n, scale);
        let next = next_locator(&locator, &previous, scale);
        previous = next_previous(&locator, &previous, scale, longer > degree);
        locator = next;
        degree = longer;
    }
    locator
}

// Returns coefficient n of the product of a polynomial and the one whose coefficients are the syndromes.
fn coefficient(locator: &[u8; 25], syndromes: &[u8; 24], n: usize) -> u8
    requires { n < 24 }
{
    let mut sum = 0;
    for k in 0..n + 1 {
        sum ^= multiply(locator[24 - k], syndromes[n - k]);
    }
    sum
}

// Returns the inverse of a byte, or 0 if it is 0.
fn inverse_or_zero(a: u8) -> u8 {
    if a == 0 {
        return 0;
    }
    inverse(a)
}

// Returns how many errors explain the first n + 1 syndromes, if `degree` explain the first n; `scale` is 0 if those explain the next
// one too.
fn next_degree(degree: usize, n: usize, scale: u8) -> usize
    requires { n < 24 }
{
    if scale == 0 {
        return degree;
    }
    if degree > n / 2 {
        return degree;
    }
    n + 1 - degree
}

fn next_locator(locator: &[u8; 25], previous: &[u8; 25], scale: u8) -> [u8; 25]
    ensures { length result ≡ 25 }
{
    if scale == 0 {
        return shifted_sum(&[0; 25], locator, 1);
    }
    shifted_sum(previous, locator, scale)
}

fn next_previous(locator: &[u8; 25], previous: &[u8; 25], scale: u8, grows: bool) -> [u8; 25]
    ensures { length result ≡ 25 }
{
    if grows {
        return shifted_sum(&[0; 25], locator, scale);
    }
    shifted_sum(previous, locator, 0)
}

/// Returns the product of the locator polynomial and the one whose coefficients are the syndromes, modulo x^parity.
pub(crate) fn error_values(locator: &[u8; 25], syndromes: &[u8; 24], parity: usize) -> [u8; 25]
    requires { parity ≤ 24 }
    ensures { length result ≡ 25 }
{
    let mut values = [0; 25];
    for n in 0..parity {
        values[24 - n] = coefficient(locator, syndromes, n);
    }
    values
}

/// Returns the terms of odd degree.
pub(crate) fn odd_part(polynomial: &[u8; 25]) -> [u8; 25]
    ensures { length result ≡ 25 }
{
    let mut odd = [0; 25];
    for k in 0..12_usize {
        odd[2 * k + 1] = polynomial[2 * k + 1];
    }
    odd
}

/// Returns the error at a position, or 0 if the position isn't wrong.
pub(crate) fn error_at(locator: &[u8; 25], values: &[u8; 25], odd: &[u8; 25], place: usize) -> u8
    requires { place < 255 }
{
    let x = power(place + 1);
    if value_at(locator, x) != 0 {
        return 0;
    }
    let slope = value_at(odd, x);
    if slope == 0 {
        return 0;
    }
    multiply(value_at(values, x), inverse(slope))
}

// Returns the value of a polynomial at x.
fn value_at(polynomial: &[u8; 25], x: u8) -> u8 {
    let mut value = 0;
    for k in 0..25_usize {
        value = multiply(value, x) ^ polynomial[k];
    }
    value
}
