//! Reconstruction of a lost block from the other blocks of its round and the parity.
ghost use Rattle.std.specs.Prelude.{◌≡◌, ◌<◌, ◌≤◌, ◌/◌, IfErr, IfOk, IsOk, OnErr, OnOk, is_ok, length};
ghost use Rattle.allocation.specs.Asked.{WasRefused};
ghost use Rattle.block_device.specs.Call.{DeviceDoes};
ghost use Rattle.verity_format.specs.Blocks.{IsOnlyRead};
ghost use Rattle.fec_area.specs.Asking.{AsksForFirst, AsksKept};
ghost use Rattle.fec_area.specs.GivenRestored.{GivesFirstLost, RestoresOver};
ghost use Rattle.fec_area.specs.Layouts.{IsLaidOn, IsLayout, covered_blocks, parity_sectors};
ghost use Rattle.fec_area.specs.Restoring.{AreLostPlaces, FailsToRestore, IsOtherCause, MakesAgain, RestoresFirst, is_beside};
ghost use Rattle.fec_area.specs.Rounds.{AllNeverFail, CanRestore, CountsFailures, OnlyReadsCovered};
ghost use Rattle.fec_area.specs.Writing.{AnyFails};

use crate::code::{Code, Gap};
use crate::layout::Layout;
use crate::round::{restore_blocks, take_column};
use allocation::{OutOfMemory, push, zeros};
use block_device::{BlockDev, DeviceFault};
use reed_solomon::restoring_products;
use std::alloc::Global;
use thiserror::Error;

/// A lost block, and the blocks that are lost with it.
#[derive(Clone, Copy)]
pub struct LostBlock<'a> {
    /// The layout of the parity.
    pub layout: &'a Layout,
    /// The indices of the covered blocks known to be lost, each listed once. The block itself may be among them.
    pub lost: &'a [u64],
    /// The index of the block among the covered blocks.
    pub index: u64,
}

/// Why a lost block wasn't reconstructed.
#[derive(Clone, Copy, Debug, PartialEq, Eq, Error)]
pub enum RestoreFault {
    /// `count` blocks of the round are lost, more than a codeword has parity bytes.
    #[error("TooManyLost count {count}")]
    TooManyLost { count: usize },
    /// The parity device has fewer sectors of 512 bytes than `needed`.
    #[error("TooSmall needed {needed}")]
    TooSmall { needed: u64 },
    /// One of the three devices failed in the call.
    #[error("Device")]
    Device,
    /// An allocation failed.
    #[error("NoMemory")]
    NoMemory,
}

impl From<DeviceFault> for RestoreFault {
    ghost use Rattle.fec_area.specs.declared.restoring.RestoreFault.TheVariants.{Device as DeviceFailed};

    ghost from_gives = { λ _ e. e ≡ DeviceFailed };

    fn from(_fault: DeviceFault) -> RestoreFault {
        RestoreFault::Device
    }
}

impl From<OutOfMemory> for RestoreFault {
    ghost use Rattle.fec_area.specs.declared.restoring.RestoreFault.TheVariants.{NoMemory};

    ghost from_gives = { λ _ e. e ≡ NoMemory };

    fn from(_error: OutOfMemory) -> RestoreFault {
        RestoreFault::NoMemory
    }
}

/// Reconstructs a lost block into `block`.
///
/// It reads the round's parity once and then each remaining block of the round once, and nothing else; lost blocks may
/// be unreadable. The bytes are the block that the code gives for the bytes that these reads returned. Memory use: the round's
/// parity, sums of the same size, and 64 KiB for each lost block of the round (twice that while the list grows), less than 4 MiB.
///
/// # Errors
///
/// - `TooManyLost` if more blocks of the round are lost than a codeword has parity bytes; no device was accessed.
/// - `TooSmall` if the parity device has fewer sectors than needed; no device was accessed.
/// - `Device` if one of the three devices fails.
/// - `NoMemory` if an allocation fails; no device was accessed.
pub fn restore_block<D: BlockDev, H: BlockDev, P: BlockDev>(
    alloc: Global,
    sought: &LostBlock<'_>,
    data_dev: &mut D,
    hash_dev: &mut H,
    parity_dev: &mut P,
    block: &mut [u8],
) -> Result<(), RestoreFault>
    requires laid { IsLaidOn sought.now.layout.now (D.state data_dev.old) (H.state hash_dev.old) }
    requires index { sought.now.index < covered_blocks sought.now.layout.now }
    requires size { length block.old ≡ sought.now.layout.now.block }
    ensures read { OnlyReadsCovered D.state H.state data_dev.old hash_dev.old data_dev.new hash_dev.new }
    ensures parity { IsOnlyRead (P.state parity_dev.old) (P.state parity_dev.new) }
    ensures bytes { OnOk result (MakesAgain sought.now (D.state data_dev.old) (H.state hash_dev.old) (P.state parity_dev.old) block.new) }
    ensures err { IfErr result (FailsToRestore sought.now D.state H.state P.state data_dev.old hash_dev.old parity_dev.old data_dev.new hash_dev.new parity_dev.new) }
    ensures sure { IfErr result (IsOtherCause (D.state data_dev.old) (H.state hash_dev.old) (P.state parity_dev.old)) }
    ensures calls { RestoresOver (DeviceDoes D.state D.does) (DeviceDoes H.state H.does) (DeviceDoes P.state P.does) sought.now block.new data_dev.old hash_dev.old parity_dev.old data_dev.new hash_dev.new parity_dev.new result }
    ensures asks { AsksKept sought.now (is_ok result) D.state H.state P.state data_dev.old hash_dev.old parity_dev.old data_dev.new hash_dev.new parity_dev.new }
    ensures counted { CountsFailures D.state H.state data_dev.old hash_dev.old data_dev.new hash_dev.new }
    ensures parity_counted { (P.state parity_dev.old).failures ≤ (P.state parity_dev.new).failures }
{
    let layout = sought.layout;
    let needed = layout.parity_sectors();
    if parity_dev.sectors() < needed {
        return Err(RestoreFault::TooSmall { needed });
    }
    let places = lost_places(alloc, sought)?;
    let count = places.len();
    if count > layout.roots {
        return Err(RestoreFault::TooManyLost { count });
    }
    let products = restoring_products(alloc, &places)?;
    let mut parity = zeros(alloc, layout.round_bytes())?;
    let mut sums = zeros(alloc, layout.block as usize * count)?;
    let round = sought.index % layout.rounds();
    let code = Code {
        layout,
        count,
        products: &products,
    };
    let gap = Gap {
        code,
        round,
        places: &places,
    };
    restore_first(
        &gap,
        data_dev,
        hash_dev,
        parity_dev,
        &mut parity,
        &mut sums,
        block,
    )?;
    Ok(())
}

// Returns the positions of the lost blocks of a round, that of the block itself first.
fn lost_places(alloc: Global, sought: &LostBlock<'_>) -> Result<Vec<usize>, OutOfMemory>
    requires layout { IsLayout sought.now.layout.now }
    requires index { sought.now.index < covered_blocks sought.now.layout.now }
    ensures ok { IfOk result (λ v. AreLostPlaces sought.now.layout.now sought.now.lost.now sought.now.index v.items) }
    ensures err { IfErr result (WasRefused 1) }
{
    let rounds = sought.layout.rounds();
    let mut places = Vec::new(alloc);
    push(&mut places, (sought.index / rounds) as usize)?;
    for other in sought.lost {
        if is_beside(sought.layout, sought.index, *other) {
            push(&mut places, (*other / rounds) as usize)?;
        }
    }
    Ok(places)
}

// Returns whether `other` is another covered block of the same round.
fn is_beside(layout: &Layout, index: u64, other: u64) -> bool
    requires layout { IsLayout layout.now }
    requires index { index < covered_blocks layout.now }
    ensures { result ≡ is_beside layout.now index other }
{
    let rounds = layout.rounds();
    other < layout.covered_blocks() && other % rounds == index % rounds && other != index
}

// Reconstructs the lost blocks of a round, and copies the first to `block`.
fn restore_first<D: BlockDev, H: BlockDev, P: BlockDev>(
    gap: &Gap<'_>,
    data_dev: &mut D,
    hash_dev: &mut H,
    parity_dev: &mut P,
    parity: &mut [u8],
    sums: &mut [u8],
    block: &mut [u8],
) -> Result<(), DeviceFault>
    requires can { CanRestore gap.now (D.state data_dev.old) (H.state hash_dev.old) parity.old block.old sums.old }
    requires some { 0 < length gap.now.places.now }
    requires room { parity_sectors gap.now.code.layout.now ≤ (P.state parity_dev.old).size }
    ensures read { OnlyReadsCovered D.state H.state data_dev.old hash_dev.old data_dev.new hash_dev.new }
    ensures parity { IsOnlyRead (P.state parity_dev.old) (P.state parity_dev.new) }
    ensures first { OnOk result (RestoresFirst gap.now (D.state data_dev.old) (H.state hash_dev.old) (P.state parity_dev.old) block.new) }
    ensures err { OnErr result (AnyFails D.state H.state P.state data_dev.old hash_dev.old parity_dev.old data_dev.new hash_dev.new parity_dev.new) }
    ensures sure { AllNeverFail (D.state data_dev.old) (H.state hash_dev.old) (P.state parity_dev.old) → IsOk result }
    ensures calls { GivesFirstLost (DeviceDoes D.state D.does) (DeviceDoes H.state H.does) (DeviceDoes P.state P.does) gap.now block.new data_dev.old hash_dev.old parity_dev.old data_dev.new hash_dev.new parity_dev.new (is_ok result) }
    ensures asks { AsksForFirst gap.now (is_ok result) D.state H.state P.state data_dev.old hash_dev.old parity_dev.old data_dev.new hash_dev.new parity_dev.new }
    ensures counted { CountsFailures D.state H.state data_dev.old hash_dev.old data_dev.new hash_dev.new }
    ensures parity_counted { (P.state parity_dev.old).failures ≤ (P.state parity_dev.new).failures }
{
    let sectors = (parity.len() / 512) as u64;
    parity_dev.read(gap.round * sectors, parity)?;
    restore_blocks(gap, data_dev, hash_dev, parity, block, sums)?;
    take_column(sums, gap.places.len(), 0, block);
    Ok(())
}
