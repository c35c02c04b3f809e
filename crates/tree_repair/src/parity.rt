//! Restores blocks by parity.
ghost use Rattle.std.specs.Prelude.{◌≡◌, ◌<◌, ◌+◌, ◌&&◌, ◌||◌, IfOk, IsTrue, OnOk, length, IfErr};
ghost use Rattle.block_device.specs.Call.{DeviceDoes};
ghost use Rattle.fec_area.specs.Layouts.{IsLaidOn, covered_blocks};
ghost use Rattle.tree_shape.specs.Digests.{digest};
ghost use Rattle.tree_shape.specs.Shape.{levels};
ghost use Rattle.tree_repair.specs.Jobs.{job};
ghost use Rattle.tree_repair.specs.ParityBounds.{TellsCame, along_bill, round_bill, tries_bill};
ghost use Rattle.tree_repair.specs.Passes.{AreBack};
ghost use Rattle.tree_repair.specs.Parity.{IsBack};
ghost use Rattle.tree_repair.specs.RepairCalls.{ReadsBoth, wrote_all};
ghost use Rattle.tree_repair.specs.RunCalls.{MakesRepair};
ghost use Rattle.tree_repair.specs.Runs.{CanRun, IsRefusal, IsWriterCause, Ran};
ghost use Rattle.tree_repair.specs.ParitySearches.{IsOfTree, is_hash_back};
ghost use Rattle.tree_repair.specs.Worlds.{IsParityRead, IsWorldRead};
ghost use Rattle.tree_repair.specs.Searching.{AreGoodFor, AsksWithin, IsInTree, IsReached, LacksBlock, MakesBytes, MakesMissing, MakesWithin, SeeksBlock, SeeksEach, SeeksWithin, TellsMissing, TellsPlace, TriesMissing, TriesWithin, missing_size};

use crate::bad::BadBlock;
use crate::correcting::correct_again;
use crate::covered::{covered_at, covered_of, is_place};
use crate::fault::{RepairFault, unrestored};
use crate::image::DamagedImage;
use crate::keeping::are_both;
use crate::losses::Losses;
use crate::place::{Repair, block_size};
use crate::putting::{Missing, put_restored};
use crate::verified_path::VerifiedPath;
use allocation::zeros;
use block_device::BlockDev;
use fec_area::{Layout, LostBlock, restore_block};
use program_io::Counted;
use std::alloc::Global;
use std::io::Write;
use verity_format::is_same;

/// Whether parity restored a hash block; and whether all blocks were restored or, for a pass, all of the image is valid.
#[derive(Clone, Copy)]
pub(crate) struct ParityOutcome {
    pub(crate) tree: bool,
    pub(crate) all: bool,
}

/// Restores the blocks that were found nowhere by parity, from the root down. Returns whether a hash block was restored, and
/// whether all blocks were restored and read back.
pub(crate) fn restore_bad<D: BlockDev, H: BlockDev, C: BlockDev, P: BlockDev, W: Write>(
    repair: &Repair,
    layout: &Layout,
    blocks: &[BadBlock],
    image: &mut DamagedImage<D, H, C>,
    parity: &mut P,
    writer: &mut Counted<W>,
) -> Result<ParityOutcome, RepairFault>
    requires asked { IsTrue repair.now.parity }
    requires can { CanRun (job repair.now) image.old.world }
    requires laid { IsLaidOn layout.now image.old.world.data_dev image.old.world.hash_dev }
    ensures parity { IsParityRead (P.state parity.old) (P.state parity.new) }
    ensures run { Ran W.contents (job repair.now) image.old.world image.new.world writer.old writer.new result }
    ensures told { IfErr result (IsWriterCause writer.new) }
    ensures sought { SeeksEach P.state repair.now layout.now blocks.now image.old.world image.new.world parity.old parity.new result }
    ensures back { IfOk result (λ came. IsTrue came.all → AreBack (job repair.now) blocks.now image.old.world image.new.world) }
    ensures within { SeeksWithin P.state repair.now layout.now blocks.now image.old.world image.new.world parity.old parity.new }
    ensures came { TellsCame W.contents (job repair.now) image.old.world image.new.world writer.old writer.new result }
    ensures handed { MakesRepair (DeviceDoes D.state D.does) (DeviceDoes H.state H.does) (job repair.now) (wrote_all result) image.old image.new }
{
    let lost = covered_of(repair, layout, blocks)?;
    let losses = Losses::of(layout, lost);
    let mut last_path = VerifiedPath::new(repair)?;
    let mut tree = false;
    let mut all = true;
    let mut kept = true;
    'each: for bad in blocks {
        let back = restore_block_at(
            &mut last_path,
            repair,
            &losses,
            bad,
            image,
            parity,
            writer,
            &mut kept,
        )?;
        tree = is_in_tree(tree, back, bad);
        all = are_both(all, back);
    }
    let sure = are_both(all, kept);
    Ok(ParityOutcome { tree, all: sure })
}

fn is_in_tree(tree: bool, back: bool, bad: &BadBlock) -> bool
    ensures { result ≡ (tree || is_hash_back back bad.now) }
{
    tree || back && bad.place.height > 0
}

// Restores a block that was found nowhere, if all hash blocks above it verify and parity can restore it.
fn restore_block_at<D: BlockDev, H: BlockDev, C: BlockDev, P: BlockDev, W: Write>(
    last_path: &mut VerifiedPath,
    repair: &Repair,
    losses: &Losses,
    bad: &BadBlock,
    image: &mut DamagedImage<D, H, C>,
    parity: &mut P,
    writer: &mut Counted<W>,
    kept: &mut bool,
) -> Result<bool, RepairFault>
    requires tree { IsOfTree (job repair.now).tree last_path.old.path }
    requires asked { IsTrue repair.now.parity }
    requires can { CanRun (job repair.now) image.old.world }
    requires laid { IsLaidOn losses.now.layout image.old.world.data_dev image.old.world.hash_dev }
    ensures tree { IsOfTree (job repair.now).tree last_path.new.path }
    ensures parity { IsParityRead (P.state parity.old) (P.state parity.new) }
    ensures run { Ran W.contents (job repair.now) image.old.world image.new.world writer.old writer.new result }
    ensures told { IfErr result (IsWriterCause writer.new) }
    ensures sought { SeeksBlock P.state repair.now losses.now bad.now image.old.world image.new.world parity.old parity.new result }
    ensures within { TriesWithin P.state repair.now losses.now bad.now image.old.world image.new.world parity.old parity.new }
    ensures came { TellsPlace W.contents repair.now bad.now.place image.old.world image.new.world writer.old writer.new result }
    ensures handed { MakesRepair (DeviceDoes D.state D.does) (DeviceDoes H.state H.does) (job repair.now) (wrote_all result) image.old image.new }
{
    if bad.found {
        return Ok(false);
    }
    let place = bad.place;
    if !is_place(repair, place) {
        return Ok(false);
    }
    if !last_path.reach(repair, image, place.index, place.height) {
        return Ok(false);
    }
    let missing = Missing {
        path: &last_path.path,
        repair,
        place,
    };
    restore_missing(&missing, losses, image, parity, writer, kept)
}

// Restores a block whose hash blocks verify.
fn restore_missing<D: BlockDev, H: BlockDev, C: BlockDev, P: BlockDev, W: Write>(
    missing: &Missing<'_>,
    losses: &Losses,
    image: &mut DamagedImage<D, H, C>,
    parity: &mut P,
    writer: &mut Counted<W>,
    kept: &mut bool,
) -> Result<bool, RepairFault>
    requires asked { IsTrue missing.now.repair.now.parity }
    requires can { CanRun (job missing.now.repair.now) image.old.world }
    requires laid { IsLaidOn losses.now.layout image.old.world.data_dev image.old.world.hash_dev }
    requires place { IsInTree missing.now }
    requires way { IsReached missing.now }
    ensures parity { IsParityRead (P.state parity.old) (P.state parity.new) }
    ensures run { Ran W.contents (job missing.now.repair.now) image.old.world image.new.world writer.old writer.new result }
    ensures told { IfErr result (IsWriterCause writer.new) }
    ensures tried { TriesMissing P.state missing.now losses.now image.old.world image.new.world parity.old parity.new result }
    ensures within { AsksWithin P.state (along_bill losses.now.layout) image.old.world image.new.world parity.old parity.new }
    ensures came { TellsMissing W.contents missing.now image.old.world image.new.world writer.old writer.new result }
    ensures handed { MakesRepair (DeviceDoes D.state D.does) (DeviceDoes H.state H.does) (job missing.now.repair.now) (wrote_all result) image.old image.new }
{
    let repair = missing.repair;
    let size = block_size(&repair.shape, missing.place.height);
    let mut made = zeros(repair.alloc, size)?;
    let mut read = zeros(repair.alloc, size)?;
    let bytes = made.as_mut_slice();
    let block = read.as_mut_slice();
    let back = make_bytes(missing, losses, image, parity, bytes)?;
    if !back {
        return Ok(false);
    }
    put_restored(missing, image, bytes, block, writer, kept)
}

// Restores the bytes of a block from the blocks that aren't lost or, if these don't give them, corrects wrong bytes of its round.
// Returns whether they have the digest that its parent stores.
fn make_bytes<D: BlockDev, H: BlockDev, C: BlockDev, P: BlockDev>(
    missing: &Missing<'_>,
    losses: &Losses,
    image: &mut DamagedImage<D, H, C>,
    parity: &mut P,
    bytes: &mut [u8],
) -> Result<bool, RepairFault>
    requires laid { IsLaidOn losses.now.layout image.old.world.data_dev image.old.world.hash_dev }
    requires way { IsReached missing.now }
    requires size { length bytes.old ≡ missing_size missing.now }
    ensures read { IsWorldRead image.old.world image.new.world }
    ensures parity { IsParityRead (P.state parity.old) (P.state parity.new) }
    ensures good { IfOk result (λ made. IsTrue made → AreGoodFor missing.now bytes.new) }
    ensures vain { MakesBytes P.state missing.now losses.now image.old.world image.new.world parity.old parity.new result }
    ensures within { MakesWithin P.state (tries_bill losses.now.layout) missing.now losses.now image.old.world image.new.world parity.old parity.new result }
    ensures err { IfErr result IsRefusal }
    ensures called { ReadsBoth (DeviceDoes D.state D.does) (DeviceDoes H.state H.does) image.old image.new }
{
    let back = make_again(missing, losses, image, parity, bytes)?;
    if !back {
        return correct_again(missing, losses, image, parity, bytes);
    }
    Ok(true)
}

// Restores the bytes of a block by parity, and returns whether they have the digest that its parent stores.
fn make_again<D: BlockDev, H: BlockDev, C: BlockDev, P: BlockDev>(
    missing: &Missing<'_>,
    losses: &Losses,
    image: &mut DamagedImage<D, H, C>,
    parity: &mut P,
    bytes: &mut [u8],
) -> Result<bool, RepairFault>
    requires laid { IsLaidOn losses.now.layout image.old.world.data_dev image.old.world.hash_dev }
    requires way { IsReached missing.now }
    requires size { length bytes.old ≡ missing_size missing.now }
    ensures read { IsWorldRead image.old.world image.new.world }
    ensures parity { IsParityRead (P.state parity.old) (P.state parity.new) }
    ensures good { IfOk result (λ made. IsTrue made → AreGoodFor missing.now bytes.new) }
    ensures vain { MakesMissing P.state missing.now losses.now image.old.world image.new.world parity.old parity.new result }
    ensures within { MakesWithin P.state (round_bill losses.now.layout) missing.now losses.now image.old.world image.new.world parity.old parity.new result }
    ensures err { IfErr result IsRefusal }
    ensures called { ReadsBoth (DeviceDoes D.state D.does) (DeviceDoes H.state H.does) image.old image.new }
{
    let repair = missing.repair;
    let place = missing.place;
    let index = match covered_at(repair, &losses.layout, place) {
        None => return Ok(false),
        Some(index) => index,
    };
    let back = restore(repair.alloc, losses, index, image, parity, bytes)?;
    if !back {
        return Ok(false);
    }
    let expected = missing.path.digest_at(place.height, place.index);
    Ok(is_same(&repair.salt.digest(bytes), &expected))
}

// Restores the bytes of a covered block, and returns whether that was possible. A refused allocation is an error.
fn restore<D: BlockDev, H: BlockDev, C: BlockDev, P: BlockDev>(
    alloc: Global,
    losses: &Losses,
    index: u64,
    image: &mut DamagedImage<D, H, C>,
    parity: &mut P,
    bytes: &mut [u8],
) -> Result<bool, RepairFault>
    requires laid { IsLaidOn losses.now.layout image.old.world.data_dev image.old.world.hash_dev }
    requires index { index < covered_blocks losses.now.layout }
    requires size { length bytes.old ≡ losses.now.layout.block }
    ensures read { IsWorldRead image.old.world image.new.world }
    ensures parity { IsParityRead (P.state parity.old) (P.state parity.new) }
    ensures bytes { IfOk result (IsBack losses.now image.old.world (P.state parity.old) index bytes.new) }
    ensures none { IfOk result (LacksBlock P.state losses.now index image.old.world image.new.world parity.old parity.new) }
    ensures within { AsksWithin P.state (round_bill losses.now.layout) image.old.world image.new.world parity.old parity.new }
    ensures err { IfErr result IsRefusal }
    ensures called { ReadsBoth (DeviceDoes D.state D.does) (DeviceDoes H.state H.does) image.old image.new }
{
    let sought = LostBlock {
        layout: &losses.layout,
        lost: losses.beside(index),
        index,
    };
    match restore_block(
        alloc,
        &sought,
        &mut image.data,
        &mut image.hash,
        parity,
        bytes,
    ) {
        Ok(()) => Ok(true),
        Err(fault) => unrestored(fault),
    }
}
