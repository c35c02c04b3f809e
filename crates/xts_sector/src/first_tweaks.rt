//! The tweaks of the first blocks of units: their encrypted numbers (IEEE 1619-2007, 5.3.1), sixteen at once.

ghost use Rattle.std.specs.Prelude.{◌≡◌, ℕ, ◌*◌, ◌%◌, ◌<◌, ◌≤◌, length, slice_index};
ghost use Rattle.aes_block.specs.Blocks.{block};
ghost use Rattle.aes_block.specs.Cipher.{cipher};
ghost use Rattle.xts_sector.specs.Tweak.{unit_number};

use crate::tweak::{Block, unit_number};
use aes_lanes::LanesKey;

/// The largest number of units whose numbers are encrypted at once.
pub const AT_ONCE: usize = 16;

/// From this many numbers on, encrypting sixteen blocks at once is faster than encrypting each separately.
const MANY: usize = 8;

/// The tweaks of the first blocks of sixteen units, stored consecutively.
pub type FirstTweaks = [u8; 256];

/// Returns the tweak of the first block of unit `number`.
pub fn first_tweak(key: &LanesKey, number: u64) -> Block
    ensures { result ≡ cipher key.now (unit_number number) }
{
    let mut tweak = unit_number(number);
    key.encrypt_blocks(&mut tweak);
    tweak
}

/// Returns how many bytes are encrypted for `count` numbers.
fn enciphered(count: usize) -> usize
    requires { count ≤ AT_ONCE }
    ensures { (16 * count ≤ result) × (result ≤ 256) × (result % 16 ≡ 0) }
{
    if count < MANY { 16 * count } else { 256 }
}

/// Writes the numbers of units, consecutively, 16 bytes each.
fn put_numbers(numbers: &[u64], blocks: &mut FirstTweaks)
    requires { length numbers.now ≤ AT_ONCE }
    ensures { (j : ℕ) → j < length numbers.now → block blocks.new j ≡ unit_number (slice_index numbers.now j) }
{
    for j in 0..numbers.len() {
        let number = unit_number(numbers[j]);
        blocks[16 * j..16 * j + 16].copy_from_slice(&number);
    }
}

/// Writes the tweaks of the first blocks of the units with these numbers, at most 16.
pub fn make_first_tweaks(key: &LanesKey, numbers: &[u64], tweaks: &mut FirstTweaks)
    requires { length numbers.now ≤ AT_ONCE }
    ensures { (j : ℕ) → j < length numbers.now → block tweaks.new j ≡ cipher key.now (unit_number (slice_index numbers.now j)) }
{
    put_numbers(numbers, tweaks);
    key.encrypt_blocks(&mut tweaks[..enciphered(numbers.len())]);
}

/// Returns tweak `j`.
pub fn tweak_at(tweaks: &FirstTweaks, j: usize) -> Block
    requires { j < AT_ONCE }
    ensures { result ≡ block tweaks.now j }
{
    let mut tweak = [0; 16];
    tweak.copy_from_slice(&tweaks[16 * j..16 * j + 16]);
    tweak
}
