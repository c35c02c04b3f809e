//! The rounds of the cipher (FIPS 197, 5.1) and of its inverse (5.3), computed with four tables for each column.

ghost use Rattle.std.specs.Prelude.{◌≡◌, ◌<◌};
ghost use Rattle.aes_block.specs.Columns.{IsColumn, state_of_columns};
ghost use Rattle.aes_block.specs.Rounds.{sub_bytes, shift_rows, mix_columns, inv_shift_rows, inv_sub_bytes, inv_mix_columns, round, last_round, unmixed_round, last_inverse_round};

use crate::columns::{Columns, add_round_key, shifted_byte, unshifted_byte};
use crate::decryption_tables::{DECRYPTION_0, DECRYPTION_1, DECRYPTION_2, DECRYPTION_3};
use crate::encryption_tables::{ENCRYPTION_0, ENCRYPTION_1, ENCRYPTION_2, ENCRYPTION_3};
use crate::s_box::{INV_S_BOX, S_BOX};

/// Returns a column of the state after SubBytes, ShiftRows and MixColumns.
#[inline(always)]
fn mixed_column(state: &Columns, column: usize) -> u32
    requires { column < 4 }
    ensures { IsColumn (mix_columns (shift_rows (sub_bytes (state_of_columns state.now)))) column result }
{
    ENCRYPTION_0[shifted_byte(state, 0, column)]
        ^ ENCRYPTION_1[shifted_byte(state, 1, column)]
        ^ ENCRYPTION_2[shifted_byte(state, 2, column)]
        ^ ENCRYPTION_3[shifted_byte(state, 3, column)]
}

/// Runs a round of the cipher.
#[inline(always)]
pub fn round(state: &Columns, key: Columns) -> Columns
    ensures { state_of_columns result ≡ round (state_of_columns state.now) (state_of_columns key) }
{
    let mixed = [
        mixed_column(state, 0),
        mixed_column(state, 1),
        mixed_column(state, 2),
        mixed_column(state, 3),
    ];
    add_round_key(mixed, key)
}

/// Returns a column of the state after SubBytes and ShiftRows.
#[inline(always)]
fn shifted_column(state: &Columns, column: usize) -> u32
    requires { column < 4 }
    ensures { IsColumn (shift_rows (sub_bytes (state_of_columns state.now))) column result }
{
    u32::from_le_bytes([
        S_BOX[shifted_byte(state, 0, column)],
        S_BOX[shifted_byte(state, 1, column)],
        S_BOX[shifted_byte(state, 2, column)],
        S_BOX[shifted_byte(state, 3, column)],
    ])
}

/// Runs the last round of the cipher, which has no MixColumns.
#[inline(always)]
pub fn last_round(state: &Columns, key: Columns) -> Columns
    ensures { state_of_columns result ≡ last_round (state_of_columns state.now) (state_of_columns key) }
{
    let shifted = [
        shifted_column(state, 0),
        shifted_column(state, 1),
        shifted_column(state, 2),
        shifted_column(state, 3),
    ];
    add_round_key(shifted, key)
}

/// Returns a column of the state after InvShiftRows, InvSubBytes and InvMixColumns.
#[inline(always)]
fn unmixed_column(state: &Columns, column: usize) -> u32
    requires { column < 4 }
    ensures { IsColumn (inv_mix_columns (inv_sub_bytes (inv_shift_rows (state_of_columns state.now)))) column result }
{
    DECRYPTION_0[unshifted_byte(state, 0, column)]
        ^ DECRYPTION_1[unshifted_byte(state, 1, column)]
        ^ DECRYPTION_2[unshifted_byte(state, 2, column)]
        ^ DECRYPTION_3[unshifted_byte(state, 3, column)]
}

/// Runs a round of the inverse cipher. Since InvMixColumns is linear, the round key has it applied too and is added
/// last.
#[inline(always)]
pub fn inverse_round(state: &Columns, unmixed_key: Columns) -> Columns
    ensures { state_of_columns result ≡ unmixed_round (state_of_columns state.now) (state_of_columns unmixed_key) }
{
    let unmixed = [
        unmixed_column(state, 0),
        unmixed_column(state, 1),
        unmixed_column(state, 2),
        unmixed_column(state, 3),
    ];
    add_round_key(unmixed, unmixed_key)
}

/// Returns a column of the state after InvShiftRows and InvSubBytes.
#[inline(always)]
fn unshifted_column(state: &Columns, column: usize) -> u32
    requires { column < 4 }
    ensures { IsColumn (inv_sub_bytes (inv_shift_rows (state_of_columns state.now))) column result }
{
    u32::from_le_bytes([
        INV_S_BOX[unshifted_byte(state, 0, column)],
        INV_S_BOX[unshifted_byte(state, 1, column)],
        INV_S_BOX[unshifted_byte(state, 2, column)],
        INV_S_BOX[unshifted_byte(state, 3, column)],
    ])
}

/// Runs the last round of the inverse cipher, which has no InvMixColumns.
#[inline(always)]
pub fn last_inverse_round(state: &Columns, key: Columns) -> Columns
    ensures { state_of_columns result ≡ last_inverse_round (state_of_columns state.now) (state_of_columns key) }
{
    let unshifted = [
        unshifted_column(state, 0),
        unshifted_column(state, 1),
        unshifted_column(state, 2),
        unshifted_column(state, 3),
    ];
    add_round_key(unshifted, key)
}
