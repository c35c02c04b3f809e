//! A round of codewords, summed position by position: its parity, or its lost blocks.
ghost use Rattle.std.specs.Prelude.{◌≡◌, ◌+◌, ◌*◌, ◌/◌, ◌<◌, ◌-◌, IsOk, OnOk, OnErr, EachIndex, is_ok, length, slice_index};
ghost use Rattle.block_device.specs.Call.{DeviceDoes};
ghost use Rattle.fec_area.specs.Asking.{AsksAt, AsksPlace, AsksRound, ReadsWithin, is_among};
ghost use Rattle.fec_area.specs.Given.{GivesKept, GivesParity, GivesPlace, GivesRestored};
ghost use Rattle.fec_area.specs.Layouts.{code_rounds};
ghost use Rattle.fec_area.specs.Rounds.{Adds, AddsKept, BothNeverFail, CanAdd, CanAddKept, CanRestore, CanSum, CountsFailures, NeitherFails, OneFails, OnlyReadsCovered, Restores, SumsUp};

use crate::code::{Code, Gap};
use crate::covered::read_covered;
use block_device::{BlockDev, DeviceFault};
use reed_solomon::add_products;

/// Computes the parity of a round. `block` is a buffer for reads.
pub(crate) fn sum_parity<D: BlockDev, H: BlockDev>(
    code: &Code<'_>,
    round: u64,
    data_dev: &mut D,
    hash_dev: &mut H,
    block: &mut [u8],
    parity: &mut [u8],
) -> Result<(), DeviceFault>
    requires can { CanSum code.now (D.state data_dev.old) (H.state hash_dev.old) block.old parity.old }
    requires round { round < code_rounds code.now.layout.now }
    ensures read { OnlyReadsCovered D.state H.state data_dev.old hash_dev.old data_dev.new hash_dev.new }
    ensures ok { OnOk result (NeitherFails D.state H.state data_dev.old hash_dev.old data_dev.new hash_dev.new) }
    ensures parity { OnOk result (SumsUp code.now (D.state data_dev.old) (H.state hash_dev.old) round parity.new) }
    ensures err { OnErr result (OneFails D.state H.state data_dev.old hash_dev.old data_dev.new hash_dev.new) }
    ensures given { GivesParity (DeviceDoes D.state D.does) (DeviceDoes H.state H.does) code.now.layout.now round parity.new data_dev.old hash_dev.old data_dev.new hash_dev.new (is_ok result) }
    ensures most { ReadsWithin ((255 - code.now.layout.now.roots) * (code.now.layout.now.block / 512)) D.state H.state data_dev.old hash_dev.old data_dev.new hash_dev.new }
    ensures counted { CountsFailures D.state H.state data_dev.old hash_dev.old data_dev.new hash_dev.new }
{
    let count = code.layout.roots;
    parity.fill(0);
    for place in 0..255 - count {
        add_place(code, round, place, data_dev, hash_dev, block, parity)?;
    }
    Ok(())
}

/// Reconstructs the lost blocks of a round from its parity and its other blocks; only the other blocks are read. With
/// n lost blocks, byte c of lost block k is at index c * n + k of `sums`. `block` is a buffer for reads.
pub(crate) fn restore_blocks<D: BlockDev, H: BlockDev>(
    gap: &Gap<'_>,
    data_dev: &mut D,
    hash_dev: &mut H,
    parity: &[u8],
    block: &mut [u8],
    sums: &mut [u8],
) -> Result<(), DeviceFault>
    requires { CanRestore gap.now (D.state data_dev.old) (H.state hash_dev.old) parity.now block.old sums.old }
    ensures read { OnlyReadsCovered D.state H.state data_dev.old hash_dev.old data_dev.new hash_dev.new }
    ensures ok { OnOk result (NeitherFails D.state H.state data_dev.old hash_dev.old data_dev.new hash_dev.new) }
    ensures restored { OnOk result (Restores gap.now (D.state data_dev.old) (H.state hash_dev.old) parity.now sums.new) }
    ensures err { OnErr result (OneFails D.state H.state data_dev.old hash_dev.old data_dev.new hash_dev.new) }
    ensures given { GivesRestored (DeviceDoes D.state D.does) (DeviceDoes H.state H.does) gap.now parity.now sums.new data_dev.old hash_dev.old data_dev.new hash_dev.new (is_ok result) }
    ensures sure { BothNeverFail (D.state data_dev.old) (H.state hash_dev.old) → IsOk result }
    ensures asks { AsksRound gap.now (is_ok result) D.state H.state data_dev.old hash_dev.old data_dev.new hash_dev.new }
    ensures counted { CountsFailures D.state H.state data_dev.old hash_dev.old data_dev.new hash_dev.new }
{
    let roots = gap.code.layout.roots;
    let count = gap.places.len();
    sums.fill(0);
    for place in 0..255 - roots {
        add_kept(gap, place, data_dev, hash_dev, block, sums)?;
    }
    for k in 0..roots {
        let first = (255 - roots + k) * count;
        take_column(parity, roots, k, block);
        add_products(&gap.code.products[first..first + count], block, sums);
    }
    Ok(())
}

// Adds the products of the bytes at one position of a round's codewords. A lost block isn't read: its products are 0.
fn add_kept<D: BlockDev, H: BlockDev>(
    gap: &Gap<'_>,
    place: usize,
    data_dev: &mut D,
    hash_dev: &mut H,
    block: &mut [u8],
    sums: &mut [u8],
) -> Result<(), DeviceFault>
    requires can { CanAddKept gap.now (D.state data_dev.old) (H.state hash_dev.old) block.old sums.old }
    requires place { place < 255 - gap.now.code.layout.now.roots }
    ensures read { OnlyReadsCovered D.state H.state data_dev.old hash_dev.old data_dev.new hash_dev.new }
    ensures ok { OnOk result (NeitherFails D.state H.state data_dev.old hash_dev.old data_dev.new hash_dev.new) }
    ensures added { OnOk result (AddsKept gap.now D.state H.state data_dev.old hash_dev.old place sums.old sums.new) }
    ensures err { OnErr result (OneFails D.state H.state data_dev.old hash_dev.old data_dev.new hash_dev.new) }
    ensures given { GivesKept (DeviceDoes D.state D.does) (DeviceDoes H.state H.does) gap.now place sums.old sums.new data_dev.old hash_dev.old data_dev.new hash_dev.new (is_ok result) }
    ensures sure { BothNeverFail (D.state data_dev.old) (H.state hash_dev.old) → IsOk result }
    ensures asks { AsksPlace gap.now place D.state H.state data_dev.old hash_dev.old data_dev.new hash_dev.new }
    ensures counted { CountsFailures D.state H.state data_dev.old hash_dev.old data_dev.new hash_dev.new }
{
    if is_lost(gap.places, place) {
        return Ok(());
    }
    add_place(&gap.code, gap.round, place, data_dev, hash_dev, block, sums)
}

// Returns whether the position is lost.
fn is_lost(places: &[usize], place: usize) -> bool
    ensures { result ≡ is_among places.now place }
{
    places.contains(&place)
}

// Adds the products of the bytes at one position of a round's codewords.
fn add_place<D: BlockDev, H: BlockDev>(
    code: &Code<'_>,
    round: u64,
    place: usize,
    data_dev: &mut D,
    hash_dev: &mut H,
    block: &mut [u8],
    sums: &mut [u8],
) -> Result<(), DeviceFault>
    requires can { CanAdd code.now (D.state data_dev.old) (H.state hash_dev.old) round block.old sums.old }
    requires place { place < 255 - code.now.layout.now.roots }
    ensures read { OnlyReadsCovered D.state H.state data_dev.old hash_dev.old data_dev.new hash_dev.new }
    ensures ok { OnOk result (NeitherFails D.state H.state data_dev.old hash_dev.old data_dev.new hash_dev.new) }
    ensures added { OnOk result (Adds code.now D.state H.state data_dev.old hash_dev.old round place sums.old sums.new) }
    ensures err { OnErr result (OneFails D.state H.state data_dev.old hash_dev.old data_dev.new hash_dev.new) }
    ensures given { GivesPlace (DeviceDoes D.state D.does) (DeviceDoes H.state H.does) code.now round place sums.old sums.new data_dev.old hash_dev.old data_dev.new hash_dev.new (is_ok result) }
    ensures sure { BothNeverFail (D.state data_dev.old) (H.state hash_dev.old) → IsOk result }
    ensures asks { AsksAt code.now round place D.state H.state data_dev.old hash_dev.old data_dev.new hash_dev.new }
    ensures counted { CountsFailures D.state H.state data_dev.old hash_dev.old data_dev.new hash_dev.new }
{
    let layout = code.layout;
    let index = place as u64 * layout.rounds() + round;
    if index >= layout.covered_blocks() {
        return Ok(());
    }
    read_covered(layout, data_dev, hash_dev, index, block)?;
    let first = place * code.count;
    add_products(&code.products[first..first + code.count], block, sums);
    Ok(())
}

/// Copies one byte of the parity of each codeword to `column`.
pub(crate) fn take_column(parity: &[u8], roots: usize, k: usize, column: &mut [u8])
    requires place { k < roots }
    requires len { length parity.now ≡ length column.old * roots }
    ensures { EachIndex column.new (λ c. slice_index column.new c ≡ slice_index parity.now (c * roots + k)) }
{
    for c in 0..column.len() {
        column[c] = parity[c * roots + k];
    }
}
