//! Correction of a block by the codewords of its round, in which some bytes may be wrong at unknown positions.
ghost use Rattle.std.specs.Prelude.{◌≡◌, ◌+◌, ◌*◌, ◌<◌, ◌≤◌, IfErr, OnErr, is_ok, length};
ghost use Rattle.block_device.specs.Call.{DeviceDoes};
ghost use Rattle.verity_format.specs.Blocks.{IsOnlyRead};
ghost use Rattle.fec_area.specs.Correcting.{FailsToCorrect, IsWithinRound, ReadsRound, ReadsToCorrect};
ghost use Rattle.fec_area.specs.Layouts.{IsLaidOn, covered_blocks, parity_sectors, round_bytes};
ghost use Rattle.fec_area.specs.Restoring.{round_of};
ghost use Rattle.fec_area.specs.Rounds.{CanSum, CountsFailures, OnlyReadsCovered};
ghost use Rattle.fec_area.specs.Writing.{AnyFails};

use crate::code::{Code, Suspect};
use crate::covered::read_covered;
use crate::restoring::{LostBlock, RestoreFault};
use crate::round::sum_parity;
use allocation::zeros;
use block_device::{BlockDev, DeviceFault};
use reed_solomon::{correct, parity_products};
use std::alloc::Global;

/// Corrects a block by the codewords of its round, and writes it to `block`. Returns `false` if a codeword has more than half as many
/// wrong bytes as parity bytes; then `block` may hold anything.
///
/// The round's parity is read once, then each block of the round, lost or not, and the block itself once more; nothing else is read.
/// Check the block's digest: a codeword with more wrong bytes may be corrected to another one. Memory use: twice the round's parity,
/// and 64 KiB for each byte of parity in a codeword (twice that while the list grows), less than 4 MiB.
///
/// # Errors
///
/// - `TooSmall` if the parity device has fewer sectors than needed; no device was accessed.
/// - `Device` if one of the three devices fails.
/// - `NoMemory` if an allocation fails; no device was accessed.
pub fn correct_block<D: BlockDev, H: BlockDev, P: BlockDev>(
    alloc: Global,
    sought: &LostBlock<'_>,
    data_dev: &mut D,
    hash_dev: &mut H,
    parity_dev: &mut P,
    block: &mut [u8],
) -> Result<bool, RestoreFault>
    requires laid { IsLaidOn sought.now.layout.now (D.state data_dev.old) (H.state hash_dev.old) }
    requires index { sought.now.index < covered_blocks sought.now.layout.now }
    requires size { length block.old ≡ sought.now.layout.now.block }
    ensures read { OnlyReadsCovered D.state H.state data_dev.old hash_dev.old data_dev.new hash_dev.new }
    ensures parity { IsOnlyRead (P.state parity_dev.old) (P.state parity_dev.new) }
    ensures err { IfErr result (FailsToCorrect sought.now D.state H.state P.state data_dev.old hash_dev.old parity_dev.old data_dev.new hash_dev.new parity_dev.new) }
    ensures calls { ReadsRound (DeviceDoes D.state D.does) (DeviceDoes H.state H.does) sought.now.layout.now (round_of sought.now.layout.now sought.now.index) sought.now.index data_dev.old hash_dev.old data_dev.new hash_dev.new (is_ok result) }
    ensures most { ReadsToCorrect sought.now.layout.now D.state H.state P.state data_dev.old hash_dev.old parity_dev.old data_dev.new hash_dev.new parity_dev.new }
    ensures counted { CountsFailures D.state H.state data_dev.old hash_dev.old data_dev.new hash_dev.new }
    ensures parity_counted { (P.state parity_dev.old).failures ≤ (P.state parity_dev.new).failures }
{
    let layout = sought.layout;
    let needed = layout.parity_sectors();
    if parity_dev.sectors() < needed {
        return Err(RestoreFault::TooSmall { needed });
    }
    let products = parity_products(alloc, layout.roots)?;
    let mut parity = zeros(alloc, layout.round_bytes())?;
    let mut stored = zeros(alloc, layout.round_bytes())?;
    let rounds = layout.rounds();
    let code = Code {
        layout,
        count: layout.roots,
        products: &products,
    };
    let suspect = Suspect {
        code,
        round: sought.index % rounds,
        place: (sought.index / rounds) as usize,
        index: sought.index,
    };
    let found = correct_by_round(
        &suspect,
        data_dev,
        hash_dev,
        parity_dev,
        block,
        &mut parity,
        &mut stored,
    )?;
    Ok(found)
}

// Computes the parity of the round's blocks as they are, compares it with the stored one, and corrects the block by the differences.
fn correct_by_round<D: BlockDev, H: BlockDev, P: BlockDev>(
    suspect: &Suspect<'_>,
    data_dev: &mut D,
    hash_dev: &mut H,
    parity_dev: &mut P,
    block: &mut [u8],
    parity: &mut [u8],
    stored: &mut [u8],
) -> Result<bool, DeviceFault>
    requires sums { CanSum suspect.now.code (D.state data_dev.old) (H.state hash_dev.old) block.old parity.old }
    requires room { parity_sectors suspect.now.code.layout.now ≤ (P.state parity_dev.old).size }
    requires stored { length stored.old ≡ round_bytes suspect.now.code.layout.now }
    requires own { IsWithinRound suspect.now }
    ensures read { OnlyReadsCovered D.state H.state data_dev.old hash_dev.old data_dev.new hash_dev.new }
    ensures parity { IsOnlyRead (P.state parity_dev.old) (P.state parity_dev.new) }
    ensures err { OnErr result (AnyFails D.state H.state P.state data_dev.old hash_dev.old parity_dev.old data_dev.new hash_dev.new parity_dev.new) }
    ensures calls { ReadsRound (DeviceDoes D.state D.does) (DeviceDoes H.state H.does) suspect.now.code.layout.now suspect.now.round suspect.now.index data_dev.old hash_dev.old data_dev.new hash_dev.new (is_ok result) }
    ensures most { ReadsToCorrect suspect.now.code.layout.now D.state H.state P.state data_dev.old hash_dev.old parity_dev.old data_dev.new hash_dev.new parity_dev.new }
    ensures counted { CountsFailures D.state H.state data_dev.old hash_dev.old data_dev.new hash_dev.new }
    ensures parity_counted { (P.state parity_dev.old).failures ≤ (P.state parity_dev.new).failures }
{
    let layout = suspect.code.layout;
    let sectors = (stored.len() / 512) as u64;
    parity_dev.read(suspect.round * sectors, stored)?;
    sum_parity(
        &suspect.code,
        suspect.round,
        data_dev,
        hash_dev,
        block,
        parity,
    )?;
    read_covered(layout, data_dev, hash_dev, suspect.index, block)?;
    let found = correct_columns(layout.roots, suspect.place, parity, stored, block);
    Ok(found)
}

// Corrects each byte of a block by its codeword, and returns whether this was possible.
fn correct_columns(
    roots: usize,
    place: usize,
    parity: &[u8],
    stored: &[u8],
    block: &mut [u8],
) -> bool
    requires few { roots ≤ 24 }
    requires place { place < 255 }
    requires parity { length parity.now ≡ length block.old * roots }
    requires stored { length stored.now ≡ length block.old * roots }
{
    for c in 0..block.len() {
        let found = error_of(roots, place, parity, stored, c);
        let error = match found {
            None => return false,
            Some(error) => error,
        };
        block[c] ^= error;
    }
    true
}

// Returns the error of one byte of a block, or `None` if its codeword can't be corrected. A word that has the computed parity is a
// codeword, so the stored word has the same errors as the difference of the two, which is 0 before its parity.
fn error_of(roots: usize, place: usize, parity: &[u8], stored: &[u8], c: usize) -> Option<u8>
    requires few { roots ≤ 24 }
    requires place { place < 255 }
    requires parity { c * roots + roots ≤ length parity.now }
    requires stored { c * roots + roots ≤ length stored.now }
{
    let word = difference(roots, parity, stored, c);
    let mut codeword = [0u8; 255];
    if !correct(&word, roots, &mut codeword) {
        return None;
    }
    Some(codeword[place])
}

// Returns the difference of two words of codeword c that differ in their parity alone.
fn difference(roots: usize, parity: &[u8], stored: &[u8], c: usize) -> [u8; 255]
    requires few { roots ≤ 24 }
    requires parity { c * roots + roots ≤ length parity.now }
    requires stored { c * roots + roots ≤ length stored.now }
    ensures { length result ≡ 255 }
{
    let mut word = [0; 255];
    let at = c * roots;
    for k in 0..roots {
        word[255 - roots + k] = parity[at + k] ^ stored[at + k];
    }
    word
}
