//! Repairs the blocks of a height, row by row.
ghost use Rattle.std.specs.Prelude.{◌≡◌, ◌<◌, ◌≤◌, false, IfOk, OnOk, OnErr, length, IfErr};
ghost use Rattle.allocation.specs.Refusal.{IsOutOfMemory};
ghost use Rattle.block_device.specs.Call.{DeviceDoes};
ghost use Rattle.tree_shape.specs.Shape.{levels};
ghost use Rattle.tree_survey.specs.Surveys.{IsWay};
ghost use Rattle.tree_path.specs.Path.{largest_block};
ghost use Rattle.tree_path.specs.Steps.{HasReadAtMost};
ghost use Rattle.tree_repair.specs.AccessBudgets.{LeavesWorld, LeavesChecked, LeavesHeight, LeavesRow, checks_over, height_over, nothing_due, reading, rows_over, way_sectors};
ghost use Rattle.tree_repair.specs.Jobs.{IsRow, job};
ghost use Rattle.tree_repair.specs.ParityBounds.{LeavesNoted, NotesInHeight, NotesInRow};
ghost use Rattle.tree_repair.specs.Notes.{NotesAt, NotesHeight, NotesRow};
ghost use Rattle.tree_repair.specs.RepairCalls.{wrote_all};
ghost use Rattle.tree_repair.specs.RunCalls.{MakesRepair};
ghost use Rattle.tree_repair.specs.Runs.{CanRun, IsWriterCause};
ghost use Rattle.tree_repair.specs.ParitySearches.{IsOfTree};
ghost use Rattle.tree_repair.specs.Visits.{IsBlockKept};
ghost use Rattle.tree_repair.specs.Worlds.{IsWorldRead};
ghost use Rattle.verity_format.specs.Blocks.{IsOnlyRead};
ghost use Rattle.verity_format.specs.Image.{tree_sectors};

use crate::bad::BadBlocks;
use crate::fault::RepairFault;
use crate::good_row::is_good_row;
use crate::image::DamagedImage;
use crate::keeping::is_kept;
use crate::place::{Place, Repair, Row};
use crate::saying::say_mended;
use crate::verified_path::VerifiedPath;
use crate::visiting::visit;
use block_device::BlockDev;
use program_io::Counted;
use std::io::Write;
use tree_path::{TreePath, span};

/// Repairs the blocks of a height: the data blocks at height 0, the hash blocks of level l at height l + 1. `memory` has 64
/// KiB.
pub(crate) fn repair_height<D: BlockDev, H: BlockDev, C: BlockDev, W: Write>(
    repair: &Repair,
    height: u32,
    image: &mut DamagedImage<D, H, C>,
    memory: &mut [u8],
    bad: &mut BadBlocks,
    writer: &mut Counted<W>,
) -> Result<(), RepairFault>
    requires can { CanRun (job repair.now) image.old.world }
    requires height { height ≤ levels repair.now.shape }
    requires few { height ≤ 14 }
    requires room { 65536 ≤ length memory.old }
    ensures notes { NotesHeight W.contents repair.now height image.old.world image.new.world bad.old bad.new writer.old writer.new result }
    ensures told { IfErr result (IsWriterCause writer.new) }
    ensures asked { LeavesHeight repair.now.shape height image.old.world image.new.world }
    ensures few { OnOk result (NotesInHeight repair.now.shape height bad.old bad.new) }
    ensures handed { MakesRepair (DeviceDoes D.state D.does) (DeviceDoes H.state H.does) (job repair.now) (wrote_all result) image.old image.new }
{
    let blocks = repair.shape.blocks();
    let width = span(&repair.shape, height + 1, blocks);
    let step = span(&repair.shape, height, blocks);
    let mut last_path = VerifiedPath::new(repair)?;
    let mut first = 0;
    'rows: while first < blocks {
        let end = (first + width).min(blocks);
        let row = Row {
            height,
            first,
            end,
            step,
        };
        repair_row(&mut last_path, repair, row, image, memory, bad, writer)?;
        first = end;
    }
    Ok(())
}

// Repairs a row if all hash blocks above it verify; otherwise notes that it is skipped.
fn repair_row<D: BlockDev, H: BlockDev, C: BlockDev, W: Write>(
    last_path: &mut VerifiedPath,
    repair: &Repair,
    row: Row,
    image: &mut DamagedImage<D, H, C>,
    memory: &mut [u8],
    bad: &mut BadBlocks,
    writer: &mut Counted<W>,
) -> Result<(), RepairFault>
    requires tree { IsOfTree (job repair.now).tree last_path.old.path }
    requires can { CanRun (job repair.now) image.old.world }
    requires row { IsRow repair.now.shape row }
    requires some { row.first < repair.now.shape.blocks }
    requires room { 65536 ≤ length memory.old }
    ensures notes { NotesRow W.contents repair.now row image.old.world image.new.world bad.old bad.new writer.old writer.new result }
    ensures told { IfErr result (IsWriterCause writer.new) }
    ensures asked { LeavesRow height_over repair.now.shape row image.old.world image.new.world }
    ensures tree { IsOfTree (job repair.now).tree last_path.new.path }
    ensures few { OnOk result (NotesInRow repair.now.shape row bad.old bad.new) }
    ensures handed { MakesRepair (DeviceDoes D.state D.does) (DeviceDoes H.state H.does) (job repair.now) (wrote_all result) image.old image.new }
{
    if !last_path.reach(repair, image, row.first, row.height) {
        bad.pass_by();
        return Ok(());
    }
    repair_unless_good(&last_path.path, repair, row, image, memory, bad, writer)
}

// Repairs a row, unless all of its blocks were read and verify.
fn repair_unless_good<D: BlockDev, H: BlockDev, C: BlockDev, W: Write>(
    path: &TreePath,
    repair: &Repair,
    row: Row,
    image: &mut DamagedImage<D, H, C>,
    memory: &mut [u8],
    bad: &mut BadBlocks,
    writer: &mut Counted<W>,
) -> Result<(), RepairFault>
    requires can { CanRun (job repair.now) image.old.world }
    requires row { IsRow repair.now.shape row }
    requires way { IsWay (job repair.now).tree row.first row.height path.now }
    requires room { 65536 ≤ length memory.old }
    ensures notes { NotesRow W.contents repair.now row image.old.world image.new.world bad.old bad.new writer.old writer.new result }
    ensures told { IfErr result (IsWriterCause writer.new) }
    ensures asked { LeavesRow rows_over repair.now.shape row image.old.world image.new.world }
    ensures few { OnOk result (NotesInRow repair.now.shape row bad.old bad.new) }
    ensures handed { MakesRepair (DeviceDoes D.state D.does) (DeviceDoes H.state H.does) (job repair.now) (wrote_all result) image.old image.new }
{
    if is_good_row(path, repair, row, image, memory) {
        return Ok(());
    }
    repair_blocks(path, repair, row, image, memory, bad, writer)
}

// Repairs the blocks of a row one by one.
fn repair_blocks<D: BlockDev, H: BlockDev, C: BlockDev, W: Write>(
    path: &TreePath,
    repair: &Repair,
    row: Row,
    image: &mut DamagedImage<D, H, C>,
    memory: &mut [u8],
    bad: &mut BadBlocks,
    writer: &mut Counted<W>,
) -> Result<(), RepairFault>
    requires can { CanRun (job repair.now) image.old.world }
    requires row { IsRow repair.now.shape row }
    requires way { IsWay (job repair.now).tree row.first row.height path.now }
    requires room { 65536 ≤ length memory.old }
    ensures notes { NotesRow W.contents repair.now row image.old.world image.new.world bad.old bad.new writer.old writer.new result }
    ensures told { IfErr result (IsWriterCause writer.new) }
    ensures asked { LeavesRow checks_over repair.now.shape row image.old.world image.new.world }
    ensures few { OnOk result (NotesInRow repair.now.shape row bad.old bad.new) }
    ensures handed { MakesRepair (DeviceDoes D.state D.does) (DeviceDoes H.state H.does) (job repair.now) (wrote_all result) image.old image.new }
{
    let Row {
        height,
        first,
        end,
        step,
    } = row;
    let mut index = first;
    'places: while index < end {
        let place = Place { height, index };
        repair_block(path, repair, place, image, memory, bad, writer)?;
        index += step;
    }
    Ok(())
}

// Visits a block, prints its line, and reads back what was written.
fn repair_block<D: BlockDev, H: BlockDev, C: BlockDev, W: Write>(
    path: &TreePath,
    repair: &Repair,
    place: Place,
    image: &mut DamagedImage<D, H, C>,
    memory: &mut [u8],
    bad: &mut BadBlocks,
    writer: &mut Counted<W>,
) -> Result<(), RepairFault>
    requires can { CanRun (job repair.now) image.old.world }
    requires inside { place.index < repair.now.shape.blocks }
    requires way { IsWay (job repair.now).tree place.index place.height path.now }
    requires room { 65536 ≤ length memory.old }
    ensures notes { NotesAt W.contents repair.now place image.old.world image.new.world bad.old bad.new writer.old writer.new result }
    ensures told { IfErr result (IsWriterCause writer.new) }
    ensures kept { OnOk result (bad.new.unkept ≡ false → IsBlockKept (job repair.now) place.height place.index image.old.world image.new.world) }
    ensures asked { LeavesChecked repair.now.shape place.height place.index image.old.world image.new.world }
    ensures few { OnOk result (LeavesNoted 1 0 bad.old bad.new) }
    ensures handed { MakesRepair (DeviceDoes D.state D.does) (DeviceDoes H.state H.does) (job repair.now) (wrote_all result) image.old image.new }
{
    let mended = visit(path, repair, place, image, memory)?;
    say_mended(writer, repair, place, mended)?;
    bad.note(place, mended, repair.write)?;
    let kept = is_kept(path, repair, place, mended, image, memory);
    bad.keep(kept);
    Ok(())
}
