//! Fetches neighbouring data blocks from the copies by large reads.
ghost use Rattle.std.specs.Prelude.{◌≡◌, ◌+◌, IfErr, IfOk, IsTrue, OnOk};
ghost use Rattle.block_device.specs.Call.{DeviceDoes};
ghost use Rattle.tree_shape.specs.Digests.{digest};
ghost use Rattle.tree_repair.specs.CopyReads.{ReadsCopies, ReadsRunOnce, ReadsRuns, copy_block, copy_read};
ghost use Rattle.tree_repair.specs.Jobs.{job};
ghost use Rattle.tree_repair.specs.Moves.{HasMoved, SaysFetches, SaysCopies};
ghost use Rattle.tree_repair.specs.ParitySearches.{IsOfTree};
ghost use Rattle.tree_repair.specs.RepairCalls.{wrote_all};
ghost use Rattle.tree_repair.specs.RunCalls.{MakesRepair};
ghost use Rattle.tree_repair.specs.Runs.{CanRun, IsWriterCause};
ghost use Rattle.tree_repair.specs.Searching.{IsInTree, IsReached};

use crate::covered::is_place;
use crate::fault::RepairFault;
use crate::image::DamagedImage;
use crate::lacking::{BlockRun, MOST, next_run};
use crate::large_reads::{copies_of, read_from_copy};
use crate::mending::Mended;
use crate::place::{Place, Repair, block_size};
use crate::putting::{Missing, put_block};
use crate::saying::say_mended;
use crate::verified_path::VerifiedPath;
use allocation::zeros;
use block_device::BlockDev;
use program_io::Counted;
use std::io::Write;
use tree_shape::{Digest, Salt};
use verity_format::is_same;

// A run of blocks, and the copy that they are read from.
#[derive(Clone, Copy)]
struct Fetch {
    copy: usize,
    run: BlockRun,
}

/// Bytes that were read from a copy, and the data block that they begin with.
#[derive(Clone, Copy)]
pub(crate) struct Fetched<'a> {
    pub(crate) copy: usize,
    pub(crate) first: u64,
    pub(crate) bytes: &'a [u8],
}

/// Fetches data blocks to which verified hash blocks lead and that the data device lacks, from one copy after another: neighbouring
/// ones are read by one read of at most 1 MiB, and those that have their digests are written. Prints a line for each. Without the
/// memory for it nothing is fetched.
///
/// # Errors
///
/// - `Image` if a write failed, or a smaller allocation was refused.
/// - `Write` if a line can't be written.
pub(crate) fn fetch_runs<D: BlockDev, H: BlockDev, C: BlockDev, W: Write>(
    repair: &Repair,
    image: &mut DamagedImage<D, H, C>,
    writer: &mut Counted<W>,
) -> Result<(), RepairFault>
    requires asked { IsTrue repair.now.parity }
    requires can { CanRun (job repair.now) image.old.world }
    ensures run { HasMoved (job repair.now) image.old.world image.new.world result }
    ensures told { IfErr result (IsWriterCause writer.new) }
    ensures said { OnOk result (SaysFetches W.contents (job repair.now) image.old.world image.new.world writer.old writer.new) }
    ensures handed { MakesRepair (DeviceDoes D.state D.does) (DeviceDoes H.state H.does) (job repair.now) (wrote_all result) image.old image.new }
    ensures reads { OnOk result (ReadsCopies (job repair.now) image.old.world image.new.world) }
{
    match zeros(repair.alloc, MOST) {
        Ok(room) => {
            let mut memory = room;
            let buffer = memory.as_mut_slice();
            fetch_copies(repair, image, buffer, writer)
        }
        Err(_) => Ok(()),
    }
}

// Fetches from one copy after another.
fn fetch_copies<D: BlockDev, H: BlockDev, C: BlockDev, W: Write>(
    repair: &Repair,
    image: &mut DamagedImage<D, H, C>,
    memory: &mut [u8],
    writer: &mut Counted<W>,
) -> Result<(), RepairFault>
    requires asked { IsTrue repair.now.parity }
    requires can { CanRun (job repair.now) image.old.world }
    ensures run { HasMoved (job repair.now) image.old.world image.new.world result }
    ensures told { IfErr result (IsWriterCause writer.new) }
    ensures said { OnOk result (SaysFetches W.contents (job repair.now) image.old.world image.new.world writer.old writer.new) }
    ensures handed { MakesRepair (DeviceDoes D.state D.does) (DeviceDoes H.state H.does) (job repair.now) (wrote_all result) image.old image.new }
    ensures reads { OnOk result (ReadsCopies (job repair.now) image.old.world image.new.world) }
{
    'copies: for copy in 0..copies_of(image) {
        fetch_each(repair, copy, image, memory, writer)?;
    }
    Ok(())
}

// Fetches one run after another from a copy.
fn fetch_each<D: BlockDev, H: BlockDev, C: BlockDev, W: Write>(
    repair: &Repair,
    copy: usize,
    image: &mut DamagedImage<D, H, C>,
    memory: &mut [u8],
    writer: &mut Counted<W>,
) -> Result<(), RepairFault>
    requires asked { IsTrue repair.now.parity }
    requires can { CanRun (job repair.now) image.old.world }
    ensures run { HasMoved (job repair.now) image.old.world image.new.world result }
    ensures told { IfErr result (IsWriterCause writer.new) }
    ensures said { OnOk result (SaysFetches W.contents (job repair.now) image.old.world image.new.world writer.old writer.new) }
    ensures handed { MakesRepair (DeviceDoes D.state D.does) (DeviceDoes H.state H.does) (job repair.now) (wrote_all result) image.old image.new }
    ensures reads { OnOk result (ReadsRuns (job repair.now) (copy_block copy 0) (copy_block (copy + 1) 0) image.old.world image.new.world) }
{
    let mut last_path = VerifiedPath::new(repair)?;
    let size = block_size(&repair.shape, 0);
    let mut read = zeros(repair.alloc, size)?;
    let block = read.as_mut_slice();
    let blocks = repair.shape.blocks();
    let mut next = 0;
    'runs: for _turn in 0..blocks {
        let Some(run) = next_run(&mut last_path, repair, next, image, block) else {
            return Ok(());
        };
        let fetch = Fetch { copy, run };
        fetch_run(&mut last_path, repair, &fetch, image, memory, writer)?;
        next = run.end;
    }
    Ok(())
}

// Reads a run from a copy, and writes those of its blocks that have their digests.
fn fetch_run<D: BlockDev, H: BlockDev, C: BlockDev, W: Write>(
    last_path: &mut VerifiedPath,
    repair: &Repair,
    fetch: &Fetch,
    image: &mut DamagedImage<D, H, C>,
    memory: &mut [u8],
    writer: &mut Counted<W>,
) -> Result<(), RepairFault>
    requires tree { IsOfTree (job repair.now).tree last_path.old.path }
    requires asked { IsTrue repair.now.parity }
    requires can { CanRun (job repair.now) image.old.world }
    ensures tree { IsOfTree (job repair.now).tree last_path.new.path }
    ensures run { HasMoved (job repair.now) image.old.world image.new.world result }
    ensures told { IfErr result (IsWriterCause writer.new) }
    ensures said { OnOk result (SaysFetches W.contents (job repair.now) image.old.world image.new.world writer.old writer.new) }
    ensures handed { MakesRepair (DeviceDoes D.state D.does) (DeviceDoes H.state H.does) (job repair.now) (wrote_all result) image.old image.new }
    ensures reads { OnOk result (ReadsRunOnce (job repair.now) (copy_read fetch.now.copy fetch.now.run.first fetch.now.run.end) image.old.world image.new.world) }
{
    let size = block_size(&repair.shape, 0);
    let BlockRun { first, end } = fetch.run;
    let count = end.saturating_sub(first);
    let len = (count as usize).saturating_mul(size).min(memory.len());
    let part = &mut memory[..len];
    let sector = first.saturating_mul((size / 512) as u64);
    if !read_from_copy(image, fetch.copy, sector, part) {
        return Ok(());
    }
    let bytes = &memory[..len];
    let fetched = Fetched {
        copy: fetch.copy,
        first,
        bytes,
    };
    'each: for k in 0..count {
        fetch_block(last_path, repair, &fetched, k, image, writer)?;
    }
    Ok(())
}

/// Writes the block of that number among bytes that were read, if all hash blocks above it verify and its digest is right. Returns how
/// many blocks were written: one or none.
pub(crate) fn fetch_block<D: BlockDev, H: BlockDev, C: BlockDev, W: Write>(
    last_path: &mut VerifiedPath,
    repair: &Repair,
    fetched: &Fetched<'_>,
    k: u64,
    image: &mut DamagedImage<D, H, C>,
    writer: &mut Counted<W>,
) -> Result<u64, RepairFault>
    requires tree { IsOfTree (job repair.now).tree last_path.old.path }
    requires asked { IsTrue repair.now.parity }
    requires can { CanRun (job repair.now) image.old.world }
    ensures tree { IsOfTree (job repair.now).tree last_path.new.path }
    ensures run { HasMoved (job repair.now) image.old.world image.new.world result }
    ensures told { IfErr result (IsWriterCause writer.new) }
    ensures said { IfOk result (SaysCopies W.contents (job repair.now) image.old.world image.new.world writer.old writer.new) }
    ensures handed { MakesRepair (DeviceDoes D.state D.does) (DeviceDoes H.state H.does) (job repair.now) (wrote_all result) image.old image.new }
    ensures kept { image.new.world.data_copies ≡ image.old.world.data_copies }
{
    let index = fetched.first.saturating_add(k);
    let place = Place { height: 0, index };
    if !is_place(repair, place) {
        return Ok(0);
    }
    if !last_path.reach(repair, image, place.index, place.height) {
        return Ok(0);
    }
    let missing = Missing {
        path: &last_path.path,
        repair,
        place,
    };
    put_fetched(&missing, fetched, k, image, writer)
}

// Writes a block of a run, if the bytes that were read for it have its digest, and prints its line. A block that is valid isn't
// written. Returns how many blocks were written: one or none.
fn put_fetched<D: BlockDev, H: BlockDev, C: BlockDev, W: Write>(
    missing: &Missing<'_>,
    fetched: &Fetched<'_>,
    k: u64,
    image: &mut DamagedImage<D, H, C>,
    writer: &mut Counted<W>,
) -> Result<u64, RepairFault>
    requires asked { IsTrue missing.now.repair.now.parity }
    requires can { CanRun (job missing.now.repair.now) image.old.world }
    requires place { IsInTree missing.now }
    requires low { missing.now.place.height ≡ 0 }
    requires way { IsReached missing.now }
    ensures run { HasMoved (job missing.now.repair.now) image.old.world image.new.world result }
    ensures told { IfErr result (IsWriterCause writer.new) }
    ensures said { IfOk result (SaysCopies W.contents (job missing.now.repair.now) image.old.world image.new.world writer.old writer.new) }
    ensures handed { MakesRepair (DeviceDoes D.state D.does) (DeviceDoes H.state H.does) (job missing.now.repair.now) (wrote_all result) image.old image.new }
    ensures kept { image.new.world.data_copies ≡ image.old.world.data_copies }
{
    let repair = missing.repair;
    let size = block_size(&repair.shape, missing.place.height);
    let mut made = zeros(repair.alloc, size)?;
    let mut read = zeros(repair.alloc, size)?;
    let bytes = made.as_mut_slice();
    let block = read.as_mut_slice();
    copy_part(fetched.bytes, k, bytes);
    let expected = missing
        .path
        .digest_at(missing.place.height, missing.place.index);
    if !has_digest(&repair.salt, &expected, bytes) {
        return Ok(0);
    }
    let back = put_block(missing, image, bytes, block)?;
    if !back {
        return Ok(0);
    }
    let number = fetched.copy.saturating_add(1);
    let place = Place {
        height: 0,
        index: missing.place.index,
    };
    say_mended(writer, repair, place, Mended::Copy(number))?;
    Ok(1)
}

// Copies the part of that number of some bytes, if they have it, into a buffer as long as a part.
fn copy_part(bytes: &[u8], k: u64, part: &mut [u8]) {
    let size = part.len();
    let from = (k as usize).saturating_mul(size);
    if bytes.len() < size {
        return;
    }
    if bytes.len() - size < from {
        return;
    }
    part.copy_from_slice(&bytes[from..from + size]);
}

fn has_digest(salt: &Salt, expected: &Digest, bytes: &[u8]) -> bool
    ensures { IsTrue result → digest salt.now bytes.now ≡ expected.now }
{
    is_same(&salt.digest(bytes), expected)
}
