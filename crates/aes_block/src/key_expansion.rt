//! The key expansion (FIPS 197, 5.2). Words are stored consecutively, four bytes each.

ghost use Rattle.std.specs.Prelude.{◌≡◌, ℕ, ◌+◌, ◌*◌, ◌<◌, ◌≤◌, length, take};
ghost use Rattle.aes_block.specs.KeyExpansion.{word, rot_word, sub_word, add_words, round_constant, key_term, rounds, key_schedule, round_key};
ghost use Rattle.aes_block.specs.Rounds.{inv_mix_columns};
ghost use Rattle.aes_block.specs.Key.{IsKeyLength};

use crate::field::power_of_x;
use crate::s_box::sub_byte;
use crate::state::{State, inv_mix_columns};

/// The size of the longest key schedule in bytes: 15 round keys of 16 bytes.
pub const MAX_SCHEDULE: usize = 240;

type Word = [u8; 4];

fn word(bytes: &[u8], i: usize) -> Word
    requires { 4 * i + 4 ≤ length bytes.now }
    ensures { result ≡ word bytes.now i }
{
    [
        bytes[4 * i],
        bytes[4 * i + 1],
        bytes[4 * i + 2],
        bytes[4 * i + 3],
    ]
}

/// ROTWORD (5.2).
fn rot_word(w: Word) -> Word
    ensures { result ≡ rot_word w }
{
    [w[1], w[2], w[3], w[0]]
}

/// SUBWORD (5.2).
fn sub_word(w: Word) -> Word
    ensures { result ≡ sub_word w }
{
    w.map(sub_byte)
}

fn add_words(v: Word, w: Word) -> Word
    ensures { result ≡ add_words v w }
{
    [v[0] ^ w[0], v[1] ^ w[1], v[2] ^ w[2], v[3] ^ w[3]]
}

/// The round constant of index `j` (5.2).
fn round_constant(j: usize) -> Word
    requires { 0 < j }
    ensures { result ≡ round_constant j }
{
    [power_of_x(j - 1), 0, 0, 0]
}

/// Returns the term added to word `i - nk` to give word `i`, where `w` is word `i - 1` (5.2).
fn key_term(nk: usize, w: Word, i: usize) -> Word
    requires positive { 0 < nk }
    requires past_key { nk ≤ i }
    ensures { result ≡ key_term nk w i }
{
    if i % nk == 0 {
        add_words(sub_word(rot_word(w)), round_constant(i / nk))
    } else if nk == 8 && i % nk == 4 {
        sub_word(w)
    } else {
        w
    }
}

/// Returns an array that begins with the key schedule of `key` (5.2).
pub fn expand(key: &[u8]) -> [u8; MAX_SCHEDULE]
    requires { IsKeyLength (length key.now) }
    ensures { take (16 * (rounds key.now + 1)) result ≡ key_schedule key.now }
{
    let nk = key.len() / 4;
    let mut schedule = [0; MAX_SCHEDULE];
    schedule[..key.len()].copy_from_slice(key);
    for i in nk..4 * (nk + 7) {
        let term = key_term(nk, word(&schedule, i - 1), i);
        let next = add_words(word(&schedule, i - nk), term);
        schedule[4 * i..4 * i + 4].copy_from_slice(&next);
    }
    schedule
}

fn round_key(schedule: &[u8; MAX_SCHEDULE], round: usize) -> State
    requires { round < 15 }
    ensures { result ≡ round_key schedule.now round }
{
    let mut key = [0; 16];
    key.copy_from_slice(&schedule[16 * round..16 * round + 16]);
    key
}

/// Returns InvMixColumns of each round key, so that a round of the inverse cipher can add its key last (5.3.5).
pub fn unmixed(schedule: &[u8; MAX_SCHEDULE]) -> [u8; MAX_SCHEDULE]
    ensures { (r : ℕ) → r < 15 → round_key result r ≡ inv_mix_columns (round_key schedule.now r) }
{
    let mut unmixed = [0; MAX_SCHEDULE];
    for round in 0..15 {
        let key = inv_mix_columns(&round_key(schedule, round));
        unmixed[16 * round..16 * round + 16].copy_from_slice(&key);
    }
    unmixed
}
