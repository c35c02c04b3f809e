//! Corrects wrong bytes of blocks by parity.
ghost use Rattle.std.specs.Prelude.{◌≡◌, ◌<◌, IfErr, IfOk, IsTrue, length};
ghost use Rattle.block_device.specs.Call.{DeviceDoes};
ghost use Rattle.fec_area.specs.Layouts.{IsLaidOn, IsLayout, covered_blocks};
ghost use Rattle.tree_repair.specs.ParityBounds.{correct_bill};
ghost use Rattle.tree_repair.specs.RepairCalls.{ReadsBoth};
ghost use Rattle.tree_repair.specs.Runs.{IsRefusal};
ghost use Rattle.tree_repair.specs.Searching.{AreGoodFor, AsksWithin, IsReached, MakesWithin, missing_size};
ghost use Rattle.tree_repair.specs.Worlds.{IsParityRead, IsWorldRead};

use crate::covered::covered_at;
use crate::fault::{RepairFault, unrestored};
use crate::image::DamagedImage;
use crate::losses::Losses;
use crate::putting::Missing;
use block_device::BlockDev;
use fec_area::{LostBlock, correct_block};
use std::alloc::Global;
use verity_format::is_same;

// If more blocks of a round are lost, none is corrected: each try reads the whole round.
const MOST_LOST: usize = 32;

/// Corrects the bytes of a block by its round, if all blocks of the round can be read and few of them are lost, and returns whether
/// they have the digest that its parent stores.
pub(crate) fn correct_again<D: BlockDev, H: BlockDev, C: BlockDev, P: BlockDev>(
    missing: &Missing<'_>,
    losses: &Losses,
    image: &mut DamagedImage<D, H, C>,
    parity: &mut P,
    bytes: &mut [u8],
) -> Result<bool, RepairFault>
    requires laid { IsLaidOn losses.now.layout image.old.world.data_dev image.old.world.hash_dev }
    requires way { IsReached missing.now }
    requires size { length bytes.old ≡ missing_size missing.now }
    ensures read { IsWorldRead image.old.world image.new.world }
    ensures parity { IsParityRead (P.state parity.old) (P.state parity.new) }
    ensures good { IfOk result (λ made. IsTrue made → AreGoodFor missing.now bytes.new) }
    ensures within { MakesWithin P.state (correct_bill losses.now.layout) missing.now losses.now image.old.world image.new.world parity.old parity.new result }
    ensures err { IfErr result IsRefusal }
    ensures called { ReadsBoth (DeviceDoes D.state D.does) (DeviceDoes H.state H.does) image.old image.new }
{
    let repair = missing.repair;
    let place = missing.place;
    let index = match covered_at(repair, &losses.layout, place) {
        None => return Ok(false),
        Some(index) => index,
    };
    if !is_few(losses, index) {
        return Ok(false);
    }
    let back = correct(repair.alloc, losses, index, image, parity, bytes)?;
    if !back {
        return Ok(false);
    }
    let expected = missing.path.digest_at(place.height, place.index);
    Ok(is_same(&repair.salt.digest(bytes), &expected))
}

// Returns whether few blocks of a round are lost.
fn is_few(losses: &Losses, index: u64) -> bool
    requires layout { IsLayout losses.now.layout }
    requires index { index < covered_blocks losses.now.layout }
{
    losses.beside(index).len() <= MOST_LOST
}

// Corrects the bytes of a covered block, and returns whether that was possible. A refused allocation is an error.
fn correct<D: BlockDev, H: BlockDev, C: BlockDev, P: BlockDev>(
    alloc: Global,
    losses: &Losses,
    index: u64,
    image: &mut DamagedImage<D, H, C>,
    parity: &mut P,
    bytes: &mut [u8],
) -> Result<bool, RepairFault>
    requires laid { IsLaidOn losses.now.layout image.old.world.data_dev image.old.world.hash_dev }
    requires index { index < covered_blocks losses.now.layout }
    requires size { length bytes.old ≡ losses.now.layout.block }
    ensures read { IsWorldRead image.old.world image.new.world }
    ensures parity { IsParityRead (P.state parity.old) (P.state parity.new) }
    ensures within { AsksWithin P.state (correct_bill losses.now.layout) image.old.world image.new.world parity.old parity.new }
    ensures err { IfErr result IsRefusal }
    ensures called { ReadsBoth (DeviceDoes D.state D.does) (DeviceDoes H.state H.does) image.old image.new }
{
    let sought = LostBlock {
        layout: &losses.layout,
        lost: losses.beside(index),
        index,
    };
    match correct_block(
        alloc,
        &sought,
        &mut image.data,
        &mut image.hash,
        parity,
        bytes,
    ) {
        Ok(found) => Ok(found),
        Err(fault) => unrestored(fault),
    }
}
