//! The rounds of the cipher and of its inverse (FIPS 197, 5.1 and 5.3) on planes.
//!
//! A state is stored with some ShiftRows pending: each round of the cipher leaves one more, each round of the inverse
//! one less, and no lane is moved. ShiftRows repeats after four times. The constant of SubBytes is added with the
//! round keys.

ghost use Rattle.std.specs.Prelude.{◌≡◌, ℕ, ◌+◌, ◌%◌, ◌<◌, List};
ghost use Rattle.aes_lanes.specs.Planes.{ArePlanes};
ghost use Rattle.aes_lanes.specs.Keys.{AreOneBlock};
ghost use Rattle.aes_lanes.specs.Rounds.{HoldKey, IsRound, IsLastRound, IsInverseStart, IsInverseRound, IsLastInverseRound};

use crate::circuit::sub_bytes_without_constant;
use crate::columns::{inv_mix_columns, mix_columns};
use crate::inverse_circuit::inv_sub_bytes_with_constant;
use crate::planes::Planes;
use crate::rows::{inv_shift_rows, shift_rows};
use crate::sums::add_round_key;

// Runs a round, after which the state has `shifts` ShiftRows pending.
#[inline(always)]
pub(crate) fn round(q: &Planes, key: &Planes, shifts: usize) -> Planes
    requires planes { ArePlanes q.now }
    requires shifts { shifts < 4 }
    ensures planes { ArePlanes result }
    ensures blocks { (s : ℕ) (k : List ℕ) → (s + 1) % 4 ≡ shifts → HoldKey shifts k key.now → IsRound s k q.now result }
{
    let substituted = sub_bytes_without_constant(q);
    let mixed = mix_columns(&substituted, shifts);
    add_round_key(&mixed, key)
}

// Runs the last round, which has no MixColumns, on a state with one ShiftRows pending. The result has none pending.
#[inline(always)]
pub(crate) fn last_round(q: &Planes, key: &Planes) -> Planes
    requires { ArePlanes q.now }
    ensures planes { ArePlanes result }
    ensures blocks { (s : ℕ) (k : List ℕ) → s % 4 ≡ 1 → HoldKey 2 k key.now → IsLastRound s k q.now result }
{
    let substituted = sub_bytes_without_constant(q);
    let keyed = add_round_key(&substituted, key);
    let once = shift_rows(&keyed);
    shift_rows(&once)
}

// Runs the first AddRoundKey of the inverse cipher. Afterwards the state has two ShiftRows pending and the constant
// of SubBytes added.
#[inline(always)]
pub(crate) fn first_inverse_key(q: &Planes, key: &Planes) -> Planes
    ensures planes { ArePlanes result }
    ensures blocks { (s : ℕ) (k : List ℕ) → s % 4 ≡ 2 → HoldKey 2 k key.now → IsInverseStart s k q.now result }
{
    let once = inv_shift_rows(q);
    let back = inv_shift_rows(&once);
    add_round_key(&back, key)
}

// Runs a round of the inverse cipher, after which the state has `shifts` ShiftRows pending. The stored state has the
// constant of SubBytes added before and after it.
#[inline(always)]
pub(crate) fn inverse_round(q: &Planes, key: &Planes, shifts: usize) -> Planes
    requires planes { ArePlanes q.now }
    requires shifts { shifts < 4 }
    ensures planes { ArePlanes result }
    ensures blocks { (s : ℕ) (k : List ℕ) → s % 4 ≡ shifts → HoldKey shifts k key.now → IsInverseRound s k q.now result }
{
    let substituted = inv_sub_bytes_with_constant(q);
    let keyed = add_round_key(&substituted, key);
    inv_mix_columns(&keyed, shifts)
}

// Runs the last round of the inverse cipher, which has no InvMixColumns and leaves no constant added.
#[inline(always)]
pub(crate) fn last_inverse_round(q: &Planes, key: &Planes) -> Planes
    requires { ArePlanes q.now }
    ensures planes { ArePlanes result }
    ensures blocks { (k : List ℕ) → AreOneBlock 0 k key.now → IsLastInverseRound k q.now result }
{
    let substituted = inv_sub_bytes_with_constant(q);
    add_round_key(&substituted, key)
}
