//! The cipher (FIPS 197, 5.1) and its inverse (5.3) on sixteen blocks.
//!
//! Rounds don't execute ShiftRows. The number of rounds, 10 or 14, leaves a remainder of two when divided by four, so
//! two ShiftRows remain for the last round.

ghost use Rattle.std.specs.Prelude.{◌≡◌, ℕ, ◌+◌, ◌%◌, ◌≤◌, List, length};
ghost use Rattle.aes_lanes.specs.Keys.{HoldKeys};
ghost use Rattle.aes_lanes.specs.Rounds.{sixteen_enciphered, sixteen_deciphered};

use crate::keys::{KeyPlanes, MAX_KEYS};
use crate::planes::{planes_of, write_blocks};
use crate::rounds::{first_inverse_key, inverse_round, last_inverse_round, last_round, round};
use crate::sums::add_round_key;

/// Encrypts sixteen blocks in place. `keys` holds round keys 0 to `rounds` as planes.
pub(crate) fn encrypt_sixteen(keys: &[KeyPlanes; MAX_KEYS], rounds: usize, blocks: &mut [u8])
    requires blocks { length blocks.old ≡ 256 }
    requires rounds { (rounds % 4 ≡ 2) × (rounds + 1 ≤ MAX_KEYS) }
    ensures { (w : List ℕ) → HoldKeys rounds w keys.now → blocks.new ≡ sixteen_enciphered rounds w blocks.old }
{
    let mut state = add_round_key(&planes_of(blocks), &keys[0].planes());
    for i in 1..rounds {
        state = round(&state, &keys[i].planes(), i % 4);
    }
    let last = last_round(&state, &keys[rounds].planes());
    write_blocks(&last, blocks);
}

/// Decrypts sixteen blocks in place. `keys` holds round keys 0 to `rounds` as planes.
pub(crate) fn decrypt_sixteen(keys: &[KeyPlanes; MAX_KEYS], rounds: usize, blocks: &mut [u8])
    requires blocks { length blocks.old ≡ 256 }
    requires rounds { (rounds % 4 ≡ 2) × (rounds + 1 ≤ MAX_KEYS) }
    ensures { (w : List ℕ) → HoldKeys rounds w keys.now → blocks.new ≡ sixteen_deciphered rounds w blocks.old }
{
    let mut state = first_inverse_key(&planes_of(blocks), &keys[rounds].planes());
    for i in (1..rounds).rev() {
        state = inverse_round(&state, &keys[i].planes(), i % 4);
    }
    let last = last_inverse_round(&state, &keys[0].planes());
    write_blocks(&last, blocks);
}
