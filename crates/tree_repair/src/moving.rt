//! Copies data blocks that are elsewhere on the data device, and fetches those that aren't.
ghost use Rattle.std.specs.Prelude.{◌≡◌, ◌<◌, ◌≤◌, ◌^◌, None, IfErr, IfOk, IsTrue, false, length, true};
ghost use Rattle.block_device.specs.Call.{DeviceDoes};
ghost use Rattle.program_io.specs.Counted.{Writes};
ghost use Rattle.tree_repair.specs.Jobs.{job};
ghost use Rattle.tree_repair.specs.Moves.{AreMoved, HasMoved, SaysMoves, moved_line};
ghost use Rattle.tree_repair.specs.ParitySearches.{IsOfTree};
ghost use Rattle.tree_repair.specs.RepairCalls.{ReadsBoth, wrote_all};
ghost use Rattle.tree_repair.specs.Repairs.{IsAllowed, IsUnrepairedBy, job_of};
ghost use Rattle.tree_repair.specs.RunCalls.{MakesRepair};
ghost use Rattle.tree_repair.specs.Runs.{CanRun, IsWriterCause};
ghost use Rattle.tree_repair.specs.Searching.{AreGoodFor, IsInTree, IsReached, missing_size};
ghost use Rattle.tree_repair.specs.Worlds.{IsWorldRead};

use crate::bad::BadBlocks;
use crate::covered::is_place;
use crate::fault::RepairFault;
use crate::fetching::fetch_runs;
use crate::image::DamagedImage;
use crate::listed::ListedBlocks;
use crate::lists::BlockLists;
use crate::place::{Place, Repair, block_size};
use crate::putting::{Missing, put_block};
use crate::repair::{Plan, check_room, repair_heights, repair_of};
use crate::seeds::copy_from_seeds;
use crate::seeking::has;
use crate::verified_path::VerifiedPath;
use allocation::zeros;
use block_device::BlockDev;
use program_io::{Counted, WriteFault};
use std::alloc::Global;
use std::io::Write;
use verity_format::is_same;

// The list of the blocks, and whether those that moved up are copied or those that moved down.
#[derive(Clone, Copy)]
struct Search<'a> {
    listed: &'a ListedBlocks,
    upwards: bool,
}

/// Repairs the tree of an image as `repair_image` does, and then copies data blocks within the data device: each corrupt block to
/// which verified hash blocks lead is read where the list, if there is one, has its digest, and written if it has the digest there.
/// Blocks that moved up are copied from the last to the first, and then those that moved down in their order, so few are overwritten
/// before they are copied. Corrupt blocks that the list of a copy has are copied from there. Then neighbouring blocks that are still
/// corrupt are read from the copies by reads of at most 1 MiB, and those with their digest are written. Prints a line for each block that
/// was written. Returns how many blocks were copied by lists, within the data device or from copies; those of runs aren't counted.
/// Nothing is synced.
///
/// # Errors
///
/// - `Image` with `TooSmall` if the data or the tree don't fit on their device, before any device is accessed.
/// - `Image` if a write failed, or an allocation was refused.
/// - `Write` if a line can't be written.
pub fn move_blocks<D: BlockDev, H: BlockDev, C: BlockDev, W: Write>(
    alloc: Global,
    image: &mut DamagedImage<D, H, C>,
    lists: &BlockLists,
    plan: &Plan,
    writer: &mut Counted<W>,
) -> Result<u64, RepairFault>
    requires first { plan.now.copy_first ≤ 2 ^ 55 }
    requires allowed { IsAllowed plan.now.write image.old.world.data_dev image.old.world.hash_dev }
    ensures ok { IfOk result (AreMoved W.contents plan.now image.old.world image.new.world writer.old writer.new) }
    ensures err { IfErr result (IsUnrepairedBy plan.now true image.old.world image.new.world None None) }
    ensures told { IfErr result (IsWriterCause writer.new) }
    ensures handed { MakesRepair (DeviceDoes D.state D.does) (DeviceDoes H.state H.does) (job_of plan.now true) (wrote_all result) image.old image.new }
{
    check_room(image, &plan.tree.shape)?;
    let repair = repair_of(alloc, plan, true);
    let mut bad = BadBlocks::new(alloc, false);
    repair_heights(&repair, 1, image, &mut bad, writer)?;
    let moved = move_if_listed(&repair, &lists.own, image, writer)?;
    let copied = copy_from_seeds(&repair, lists.copies.as_slice(), image, writer)?;
    fetch_runs(&repair, image, writer)?;
    Ok(moved.saturating_add(copied))
}

// Copies the data blocks that moved, if there is a list. Returns how many were copied.
fn move_if_listed<D: BlockDev, H: BlockDev, C: BlockDev, W: Write>(
    repair: &Repair,
    listed: &Option<ListedBlocks>,
    image: &mut DamagedImage<D, H, C>,
    writer: &mut Counted<W>,
) -> Result<u64, RepairFault>
    requires asked { IsTrue repair.now.parity }
    requires can { CanRun (job repair.now) image.old.world }
    ensures run { HasMoved (job repair.now) image.old.world image.new.world result }
    ensures told { IfErr result (IsWriterCause writer.new) }
    ensures said { IfOk result (SaysMoves W.contents (job repair.now) image.old.world image.new.world writer.old writer.new) }
    ensures handed { MakesRepair (DeviceDoes D.state D.does) (DeviceDoes H.state H.does) (job repair.now) (wrote_all result) image.old image.new }
    ensures kept { image.new.world.data_copies ≡ image.old.world.data_copies }
{
    match listed {
        None => Ok(0),
        Some(listed) => move_both(repair, listed, image, writer),
    }
}

// Copies the data blocks that moved up, and then those that moved down. Returns how many were copied.
fn move_both<D: BlockDev, H: BlockDev, C: BlockDev, W: Write>(
    repair: &Repair,
    listed: &ListedBlocks,
    image: &mut DamagedImage<D, H, C>,
    writer: &mut Counted<W>,
) -> Result<u64, RepairFault>
    requires asked { IsTrue repair.now.parity }
    requires can { CanRun (job repair.now) image.old.world }
    ensures run { HasMoved (job repair.now) image.old.world image.new.world result }
    ensures told { IfErr result (IsWriterCause writer.new) }
    ensures said { IfOk result (SaysMoves W.contents (job repair.now) image.old.world image.new.world writer.old writer.new) }
    ensures handed { MakesRepair (DeviceDoes D.state D.does) (DeviceDoes H.state H.does) (job repair.now) (wrote_all result) image.old image.new }
    ensures kept { image.new.world.data_copies ≡ image.old.world.data_copies }
{
    let upwards = Search {
        listed,
        upwards: true,
    };
    let up = move_data(repair, &upwards, image, writer)?;
    let downwards = Search {
        listed,
        upwards: false,
    };
    let down = move_data(repair, &downwards, image, writer)?;
    Ok(up.saturating_add(down))
}

// Copies the data blocks that moved up, from the last to the first, or those that moved down, in their order. Returns how many were
// copied.
fn move_data<D: BlockDev, H: BlockDev, C: BlockDev, W: Write>(
    repair: &Repair,
    search: &Search<'_>,
    image: &mut DamagedImage<D, H, C>,
    writer: &mut Counted<W>,
) -> Result<u64, RepairFault>
    requires asked { IsTrue repair.now.parity }
    requires can { CanRun (job repair.now) image.old.world }
    ensures run { HasMoved (job repair.now) image.old.world image.new.world result }
    ensures told { IfErr result (IsWriterCause writer.new) }
    ensures said { IfOk result (SaysMoves W.contents (job repair.now) image.old.world image.new.world writer.old writer.new) }
    ensures handed { MakesRepair (DeviceDoes D.state D.does) (DeviceDoes H.state H.does) (job repair.now) (wrote_all result) image.old image.new }
    ensures kept { image.new.world.data_copies ≡ image.old.world.data_copies }
{
    let mut last_path = VerifiedPath::new(repair)?;
    let blocks = repair.shape.blocks();
    let mut moved: u64 = 0;
    'each: for k in 0..blocks {
        let index = turn_of(k, blocks, search.upwards);
        let copied = move_block(&mut last_path, repair, search, index, image, writer)?;
        moved = moved.saturating_add(copied);
    }
    Ok(moved)
}

// The block of turn k.
fn turn_of(k: u64, blocks: u64, upwards: bool) -> u64 {
    if upwards {
        return blocks.saturating_sub(k).saturating_sub(1);
    }
    k
}

// Copies a data block, if all hash blocks above it verify and the list has its digest at another place. Returns how many blocks were
// copied: one or none.
fn move_block<D: BlockDev, H: BlockDev, C: BlockDev, W: Write>(
    last_path: &mut VerifiedPath,
    repair: &Repair,
    search: &Search<'_>,
    index: u64,
    image: &mut DamagedImage<D, H, C>,
    writer: &mut Counted<W>,
) -> Result<u64, RepairFault>
    requires tree { IsOfTree (job repair.now).tree last_path.old.path }
    requires asked { IsTrue repair.now.parity }
    requires can { CanRun (job repair.now) image.old.world }
    ensures tree { IsOfTree (job repair.now).tree last_path.new.path }
    ensures run { HasMoved (job repair.now) image.old.world image.new.world result }
    ensures told { IfErr result (IsWriterCause writer.new) }
    ensures said { IfOk result (SaysMoves W.contents (job repair.now) image.old.world image.new.world writer.old writer.new) }
    ensures handed { MakesRepair (DeviceDoes D.state D.does) (DeviceDoes H.state H.does) (job repair.now) (wrote_all result) image.old image.new }
    ensures kept { image.new.world.data_copies ≡ image.old.world.data_copies }
{
    let place = Place { height: 0, index };
    if !is_place(repair, place) {
        return Ok(0);
    }
    if !last_path.reach(repair, image, place.index, place.height) {
        return Ok(0);
    }
    let digest = last_path.path.digest_at(place.height, place.index);
    let source = match search.listed.source(&digest, index, search.upwards) {
        None => return Ok(0),
        Some(source) => source,
    };
    let missing = Missing {
        path: &last_path.path,
        repair,
        place,
    };
    copy_from(&missing, source, image, writer)
}

// Copies a block from another place, if it has the block's digest there, and prints its line. A block that is valid isn't written.
// Returns how many blocks were copied: one or none.
fn copy_from<D: BlockDev, H: BlockDev, C: BlockDev, W: Write>(
    missing: &Missing<'_>,
    source: u64,
    image: &mut DamagedImage<D, H, C>,
    writer: &mut Counted<W>,
) -> Result<u64, RepairFault>
    requires asked { IsTrue missing.now.repair.now.parity }
    requires can { CanRun (job missing.now.repair.now) image.old.world }
    requires place { IsInTree missing.now }
    requires low { missing.now.place.height ≡ 0 }
    requires way { IsReached missing.now }
    ensures run { HasMoved (job missing.now.repair.now) image.old.world image.new.world result }
    ensures told { IfErr result (IsWriterCause writer.new) }
    ensures said { IfOk result (SaysMoves W.contents (job missing.now.repair.now) image.old.world image.new.world writer.old writer.new) }
    ensures handed { MakesRepair (DeviceDoes D.state D.does) (DeviceDoes H.state H.does) (job missing.now.repair.now) (wrote_all result) image.old image.new }
    ensures kept { image.new.world.data_copies ≡ image.old.world.data_copies }
{
    let repair = missing.repair;
    let size = block_size(&repair.shape, missing.place.height);
    let mut made = zeros(repair.alloc, size)?;
    let mut read = zeros(repair.alloc, size)?;
    let bytes = made.as_mut_slice();
    let block = read.as_mut_slice();
    if !is_at(missing, source, image, bytes) {
        return Ok(0);
    }
    let back = put_block(missing, image, bytes, block)?;
    if !back {
        return Ok(0);
    }
    say_moved(writer, missing.place.index, source)?;
    Ok(1)
}

// Reads the data block of that number into `bytes`, also after the end of the data, and returns whether it has the digest that leads to
// the missing block.
fn is_at<D: BlockDev, H: BlockDev, C: BlockDev>(
    missing: &Missing<'_>,
    source: u64,
    image: &mut DamagedImage<D, H, C>,
    bytes: &mut [u8],
) -> bool
    requires can { CanRun (job missing.now.repair.now) image.old.world }
    requires place { IsInTree missing.now }
    requires way { IsReached missing.now }
    requires size { length bytes.old ≡ missing_size missing.now }
    ensures read { IsWorldRead image.old.world image.new.world }
    ensures good { IsTrue result → AreGoodFor missing.now bytes.new }
    ensures called { ReadsBoth (DeviceDoes D.state D.does) (DeviceDoes H.state H.does) image.old image.new }
    ensures kept { image.new.world.data_copies ≡ image.old.world.data_copies }
{
    let repair = missing.repair;
    let place = missing.place;
    let sectors = (bytes.len() / 512) as u64;
    let first = source.saturating_mul(sectors);
    if is_far(first) {
        return false;
    }
    let expected = missing.path.digest_at(place.height, place.index);
    has(&mut image.data, first, &repair.salt, &expected, bytes)
}

// Returns whether no device has a sector of that number.
fn is_far(first: u64) -> bool
    ensures { result ≡ false → first < 2 ^ 60 }
{
    if first >= 1_152_921_504_606_846_976 {
        return true;
    }
    false
}

// `moved data INDEX from SOURCE`
#[tactic(auto, unfolding(crate::specs::Moves::moved_line))]
fn say_moved<W: Write>(writer: &mut Counted<W>, index: u64, source: u64) -> Result<(), WriteFault>
    ensures { Writes W.contents writer.old writer.new (moved_line index source) result }
{
    writer.print(format_args!("moved data {index} from {source}\n"))
}
