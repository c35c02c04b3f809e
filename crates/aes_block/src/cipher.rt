//! The cipher (FIPS 197, 5.1) and its inverse (5.3), for a given key schedule.

ghost use Rattle.std.specs.Prelude.{◌≡◌, ℕ, ◌+◌, ◌*◌, ◌<◌, ◌≤◌, length};
ghost use Rattle.aes_block.specs.Rounds.{inv_mix_columns};
ghost use Rattle.aes_block.specs.KeyExpansion.{round_key};
ghost use Rattle.aes_block.specs.Cipher.{cipher_with, inverse_cipher_with};

use crate::columns::{add_round_key, block_of, columns_of, round_key};
use crate::rounds::{inverse_round, last_inverse_round, last_round, round};
use crate::state::State;

/// Encrypts a block: CIPHER (5.1).
pub fn cipher_with(rounds: usize, schedule: &[u8], block: &State) -> State
    requires rounds { 0 < rounds }
    requires schedule { 16 * rounds + 16 ≤ length schedule.now }
    ensures { result ≡ cipher_with rounds schedule.now block.now }
{
    let mut state = add_round_key(columns_of(block), round_key(schedule, 0));
    for i in 1..rounds {
        state = round(&state, round_key(schedule, i));
    }
    block_of(last_round(&state, round_key(schedule, rounds)))
}

/// Decrypts a block: INVCIPHER (5.3). `unmixed` holds InvMixColumns of each round key.
pub fn inverse_cipher_with(rounds: usize, schedule: &[u8], unmixed: &[u8], block: &State) -> State
    requires rounds { 0 < rounds }
    requires schedule { 16 * rounds + 16 ≤ length schedule.now }
    requires long { 16 * rounds + 16 ≤ length unmixed.now }
    requires unmixed { (r : ℕ) → r < rounds → round_key unmixed.now r ≡ inv_mix_columns (round_key schedule.now r) }
    ensures { result ≡ inverse_cipher_with rounds schedule.now block.now }
{
    let mut state = add_round_key(columns_of(block), round_key(schedule, rounds));
    for i in (1..rounds).rev() {
        state = inverse_round(&state, round_key(unmixed, i));
    }
    block_of(last_inverse_round(&state, round_key(schedule, 0)))
}
