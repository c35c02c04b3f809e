//! Copies data blocks from other places of copies.
ghost use Rattle.std.specs.Prelude.{◌≡◌, ◌+◌, IfErr, IfOk, IsTrue, OnOk};
ghost use Rattle.block_device.specs.Call.{DeviceDoes};
ghost use Rattle.tree_repair.specs.CopyReads.{ReadsLists, ReadsSeeds, copy_block};
ghost use Rattle.tree_repair.specs.Jobs.{job};
ghost use Rattle.tree_repair.specs.Moves.{HasMoved, SaysCopies};
ghost use Rattle.tree_repair.specs.ParitySearches.{IsOfTree};
ghost use Rattle.tree_repair.specs.RepairCalls.{wrote_all};
ghost use Rattle.tree_repair.specs.RunCalls.{MakesRepair};
ghost use Rattle.tree_repair.specs.Runs.{CanRun, IsWriterCause};

use crate::covered::is_place;
use crate::fault::RepairFault;
use crate::fetching::{Fetched, fetch_block};
use crate::image::DamagedImage;
use crate::lacking::is_lacking;
use crate::large_reads::read_from_copy;
use crate::listed::ListedBlocks;
use crate::place::{Place, Repair, block_size};
use crate::verified_path::VerifiedPath;
use allocation::zeros;
use block_device::BlockDev;
use program_io::Counted;
use std::io::Write;

// A copy, and the list of its blocks.
#[derive(Clone, Copy)]
struct Seed<'a> {
    copy: usize,
    listed: &'a ListedBlocks,
}

// A data block, a copy, and the block of the copy that may have its bytes.
#[derive(Clone, Copy)]
struct SeedBlock {
    copy: usize,
    index: u64,
    source: u64,
}

/// Copies data blocks to which verified hash blocks lead and that the data device lacks, from one listed copy after another: each is
/// read where the list has its digest, unless that is its own place, and written if it has the digest. Prints a line for each, and
/// returns how many were copied.
///
/// # Errors
///
/// - `Image` if a write failed, or an allocation was refused.
/// - `Write` if a line can't be written.
pub(crate) fn copy_from_seeds<D: BlockDev, H: BlockDev, C: BlockDev, W: Write>(
    repair: &Repair,
    lists: &[Option<ListedBlocks>],
    image: &mut DamagedImage<D, H, C>,
    writer: &mut Counted<W>,
) -> Result<u64, RepairFault>
    requires asked { IsTrue repair.now.parity }
    requires can { CanRun (job repair.now) image.old.world }
    ensures run { HasMoved (job repair.now) image.old.world image.new.world result }
    ensures told { IfErr result (IsWriterCause writer.new) }
    ensures said { IfOk result (SaysCopies W.contents (job repair.now) image.old.world image.new.world writer.old writer.new) }
    ensures handed { MakesRepair (DeviceDoes D.state D.does) (DeviceDoes H.state H.does) (job repair.now) (wrote_all result) image.old image.new }
    ensures reads { OnOk result (ReadsLists (job repair.now) image.old.world image.new.world) }
{
    let mut copied: u64 = 0;
    'copies: for copy in 0..lists.len() {
        let more = copy_if_listed(repair, &lists[copy], copy, image, writer)?;
        copied = copied.saturating_add(more);
    }
    Ok(copied)
}

// Copies blocks from a copy, if its blocks are listed. Returns how many were copied.
fn copy_if_listed<D: BlockDev, H: BlockDev, C: BlockDev, W: Write>(
    repair: &Repair,
    listed: &Option<ListedBlocks>,
    copy: usize,
    image: &mut DamagedImage<D, H, C>,
    writer: &mut Counted<W>,
) -> Result<u64, RepairFault>
    requires asked { IsTrue repair.now.parity }
    requires can { CanRun (job repair.now) image.old.world }
    ensures run { HasMoved (job repair.now) image.old.world image.new.world result }
    ensures told { IfErr result (IsWriterCause writer.new) }
    ensures said { IfOk result (SaysCopies W.contents (job repair.now) image.old.world image.new.world writer.old writer.new) }
    ensures handed { MakesRepair (DeviceDoes D.state D.does) (DeviceDoes H.state H.does) (job repair.now) (wrote_all result) image.old image.new }
    ensures reads { OnOk result (ReadsSeeds (job repair.now) (copy_block copy 0) (copy_block (copy + 1) 0) image.old.world image.new.world) }
{
    match listed {
        None => Ok(0),
        Some(listed) => {
            let seed = Seed { copy, listed };
            copy_from_seed(repair, &seed, image, writer)
        }
    }
}

// Copies one block after another from a copy. Returns how many were copied.
fn copy_from_seed<D: BlockDev, H: BlockDev, C: BlockDev, W: Write>(
    repair: &Repair,
    seed: &Seed<'_>,
    image: &mut DamagedImage<D, H, C>,
    writer: &mut Counted<W>,
) -> Result<u64, RepairFault>
    requires asked { IsTrue repair.now.parity }
    requires can { CanRun (job repair.now) image.old.world }
    ensures run { HasMoved (job repair.now) image.old.world image.new.world result }
    ensures told { IfErr result (IsWriterCause writer.new) }
    ensures said { IfOk result (SaysCopies W.contents (job repair.now) image.old.world image.new.world writer.old writer.new) }
    ensures handed { MakesRepair (DeviceDoes D.state D.does) (DeviceDoes H.state H.does) (job repair.now) (wrote_all result) image.old image.new }
    ensures reads { OnOk result (ReadsSeeds (job repair.now) (copy_block seed.now.copy 0) (copy_block (seed.now.copy + 1) 0) image.old.world image.new.world) }
{
    let mut last_path = VerifiedPath::new(repair)?;
    let blocks = repair.shape.blocks();
    let mut copied: u64 = 0;
    'each: for index in 0..blocks {
        let more = seek_in_seed(&mut last_path, repair, seed, index, image, writer)?;
        copied = copied.saturating_add(more);
    }
    Ok(copied)
}

// Copies a data block from a copy, if all hash blocks above it verify and the list has its digest at another place. Returns how many
// blocks were copied: one or none.
fn seek_in_seed<D: BlockDev, H: BlockDev, C: BlockDev, W: Write>(
    last_path: &mut VerifiedPath,
    repair: &Repair,
    seed: &Seed<'_>,
    index: u64,
    image: &mut DamagedImage<D, H, C>,
    writer: &mut Counted<W>,
) -> Result<u64, RepairFault>
    requires tree { IsOfTree (job repair.now).tree last_path.old.path }
    requires asked { IsTrue repair.now.parity }
    requires can { CanRun (job repair.now) image.old.world }
    ensures tree { IsOfTree (job repair.now).tree last_path.new.path }
    ensures run { HasMoved (job repair.now) image.old.world image.new.world result }
    ensures told { IfErr result (IsWriterCause writer.new) }
    ensures said { IfOk result (SaysCopies W.contents (job repair.now) image.old.world image.new.world writer.old writer.new) }
    ensures handed { MakesRepair (DeviceDoes D.state D.does) (DeviceDoes H.state H.does) (job repair.now) (wrote_all result) image.old image.new }
    ensures reads { OnOk result (ReadsSeeds (job repair.now) (copy_block seed.now.copy index) (copy_block seed.now.copy (index + 1)) image.old.world image.new.world) }
{
    let place = Place { height: 0, index };
    if !is_place(repair, place) {
        return Ok(0);
    }
    if !last_path.reach(repair, image, place.index, place.height) {
        return Ok(0);
    }
    let digest = last_path.path.digest_at(place.height, place.index);
    let source = match seed.listed.elsewhere(&digest, index) {
        None => return Ok(0),
        Some(source) => source,
    };
    let block = SeedBlock {
        copy: seed.copy,
        index,
        source,
    };
    copy_seed_block(last_path, repair, &block, image, writer)
}

// Copies a data block from a copy, if the data device lacks it and the copy has its bytes at that place. Returns how many blocks were
// copied: one or none.
fn copy_seed_block<D: BlockDev, H: BlockDev, C: BlockDev, W: Write>(
    last_path: &mut VerifiedPath,
    repair: &Repair,
    block: &SeedBlock,
    image: &mut DamagedImage<D, H, C>,
    writer: &mut Counted<W>,
) -> Result<u64, RepairFault>
    requires tree { IsOfTree (job repair.now).tree last_path.old.path }
    requires asked { IsTrue repair.now.parity }
    requires can { CanRun (job repair.now) image.old.world }
    ensures tree { IsOfTree (job repair.now).tree last_path.new.path }
    ensures run { HasMoved (job repair.now) image.old.world image.new.world result }
    ensures told { IfErr result (IsWriterCause writer.new) }
    ensures said { IfOk result (SaysCopies W.contents (job repair.now) image.old.world image.new.world writer.old writer.new) }
    ensures handed { MakesRepair (DeviceDoes D.state D.does) (DeviceDoes H.state H.does) (job repair.now) (wrote_all result) image.old image.new }
    ensures reads { OnOk result (ReadsSeeds (job repair.now) (copy_block block.now.copy block.now.index) (copy_block block.now.copy (block.now.index + 1)) image.old.world image.new.world) }
{
    let size = block_size(&repair.shape, 0);
    let mut read = zeros(repair.alloc, size)?;
    let bytes = read.as_mut_slice();
    if !is_lacking(last_path, repair, block.index, image, bytes) {
        return Ok(0);
    }
    let first = block.source.saturating_mul((size / 512) as u64);
    if !read_from_copy(image, block.copy, first, bytes) {
        return Ok(0);
    }
    let fetched = Fetched {
        copy: block.copy,
        first: block.index,
        bytes: read.as_slice(),
    };
    fetch_block(last_path, repair, &fetched, 0, image, writer)
}
