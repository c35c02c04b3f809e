//! Round keys stored as planes.

ghost use Rattle.std.specs.Prelude.{◌≡◌, ◌+◌, ◌*◌, ◌%◌, ◌≤◌, length};
ghost use Rattle.aes_block.specs.KeyExpansion.{rounds, key_schedule, round_key};
ghost use Rattle.aes_lanes.specs.Keys.{AreOneBlock, HoldKeys, kept_key, planes_in};

use crate::planes::{Planes, turn};
use crate::rows::inv_shift_rows;
use crate::sums::add_constant;
use aes_block::AesKey;
use std::simd::prelude::*;

/// The largest number of round keys in a key schedule.
pub(crate) const MAX_KEYS: usize = 15;

/// The planes of sixteen copies of a round key.
#[derive(Clone, Copy)]
pub(crate) struct KeyPlanes {
    p0: u8x32,
    p1: u8x32,
    p2: u8x32,
    p3: u8x32,
    p4: u8x32,
    p5: u8x32,
    p6: u8x32,
    p7: u8x32,
}

impl KeyPlanes {
    #[inline(always)]
    fn new(planes: &Planes) -> KeyPlanes
        ensures { planes_in result ≡ planes.now }
    {
        let [p0, p1, p2, p3, p4, p5, p6, p7] = *planes;
        KeyPlanes {
            p0,
            p1,
            p2,
            p3,
            p4,
            p5,
            p6,
            p7,
        }
    }

    #[inline(always)]
    pub(crate) fn planes(&self) -> Planes
        ensures { result ≡ planes_in self.now }
    {
        [
            self.p0, self.p1, self.p2, self.p3, self.p4, self.p5, self.p6, self.p7,
        ]
    }
}

// Returns the planes of sixteen copies of a round key.
fn copies(schedule: &[u8], round: usize) -> Planes
    requires { 16 * round + 16 ≤ length schedule.now }
    ensures { AreOneBlock 0 (round_key schedule.now round) result }
{
    let key = u8x16::from_slice(&schedule[16 * round..16 * round + 16]);
    let twice = key.shuffle(
        key,
        [
            0, 1, 2, 3, 4, 5, 6, 7, 8, 9, 10, 11, 12, 13, 14, 15, 16, 17, 18, 19, 20, 21, 22, 23,
            24, 25, 26, 27, 28, 29, 30, 31,
        ],
    );
    turn(&[twice; 8])
}

// Returns the planes of sixteen copies of a round key as it is stored: with the constant of SubBytes added, except
// for round key 0, and with as many ShiftRows pending as the state to which it is added.
fn kept_planes(schedule: &[u8], round: usize) -> Planes
    requires { 16 * round + 16 ≤ length schedule.now }
    ensures { AreOneBlock (round % 4) (kept_key schedule.now round) result }
{
    let plain = copies(schedule, round);
    let mut planes = if round == 0 {
        plain
    } else {
        add_constant(&plain)
    };
    for _shift in 0..round % 4 {
        planes = inv_shift_rows(&planes);
    }
    planes
}

/// Returns the planes of round keys 0 to `rounds`.
pub(crate) fn key_planes(schedule: &[u8], rounds: usize) -> [KeyPlanes; MAX_KEYS]
    requires few { rounds + 1 ≤ MAX_KEYS }
    requires long { 16 * rounds + 16 ≤ length schedule.now }
    ensures { HoldKeys rounds schedule.now result }
{
    let mut keys = [KeyPlanes::new(&[u8x32::splat(0); 8]); MAX_KEYS];
    for round in 0..rounds + 1 {
        let planes = kept_planes(schedule, round);
        keys[round] = KeyPlanes::new(&planes);
    }
    keys
}

/// Returns the planes of a key's round keys.
pub(crate) fn planes_of_key(key: &AesKey) -> [KeyPlanes; MAX_KEYS]
    ensures { HoldKeys (rounds key.now) (key_schedule key.now) result }
{
    let schedule = key.schedule();
    key_planes(schedule, schedule.len() / 16 - 1)
}
