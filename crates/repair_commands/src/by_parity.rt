//! `repair --fec FILE`: restores what no copy has by the parity in a file.
ghost use Rattle.std.specs.Prelude.{◌≤◌, ◌^◌, IfErr, IfOk, OnOk};
ghost use Rattle.tree_repair.specs.Repairs.{IsAllowed};
ghost use Rattle.repair_commands.specs.ByParity.{AreRepairedByFec, AreUnrepairedByFec, IsPairMendedByFec, IsPairUnmendedByFec};
ghost use Rattle.fec_area.specs.Layouts.{IsLaidOn};
ghost use Rattle.repair_commands.specs.Mends.{IsEndBehind, IsMendedInPasses, IsMendingCut, IsRunByParity, IsRunCut, IsUnheard, parity_use};
ghost use Rattle.verity_format.specs.Blocks.{IsOnlyRead};

use crate::devices::devices_of;
use crate::fault::ParityRepairFault;
use crate::found_tree::{FoundTree, find_repaired_tree};
use crate::nowhere::Nowhere;
use crate::opening::{Opened, open_all};
use crate::pair::RepairPlaces;
use crate::parity::{LaidParity, lay_out, open_parity};
use crate::repair::{damaged, give_back, plan_at};
use crate::rest::tell;
use crate::syncing::{end_of, sync_both};
use block_device::{BlockDev, SyncDev};
use command_line::{FecFile, ImageCopy};
use fec_area::Layout;
use image_commands::{SoughtTree, may_seek};
use image_files::Images;
use program_io::Counted;
use std::alloc::Global;
use std::io::Write;
use tree_repair::{DamagedImage, Outcome, Plan, RepairFault, repair_with_parity};
use verity_commands::TreeFault;

/// Runs `repair --fec FILE [--fec-roots N] ..`. It repairs as `repair_images` does, and restores each block that no copy has by
/// the parity in FILE. FILE is opened last, for reading.
///
/// # Errors
///
/// - `Tree` with the faults of `repair_images`.
/// - `BlockSizes` if the tree has two block sizes.
/// - `TooSmall` if FILE has fewer sectors than needed.
pub fn repair_by_parity<'a, I: Images, W: Write>(
    alloc: Global,
    images: &mut I,
    places: RepairPlaces<'a>,
    fec: &FecFile<'a>,
    copies: &[ImageCopy<'a>],
    sought: &SoughtTree,
    writer: &mut Counted<W>,
) -> Result<(), ParityRepairFault<'a>>
    requires first { places.hash_first ≤ 2 ^ 55 }
    requires some { 2 ≤ fec.now.roots }
    requires few { fec.now.roots ≤ 24 }
    ensures ok { OnOk result (AreRepairedByFec I.relations I.Dev.state images.old images.new places.entry fec.now copies.now sought.now W.contents writer.old writer.new) }
    ensures err { IfErr result (AreUnrepairedByFec I.relations I.Dev.state images.old images.new places.entry fec.now copies.now sought.now W.contents writer.old writer.new) }
{
    let first = places.hash_first;
    if !may_seek(&sought.source, first) {
        return Err(ParityRepairFault::Tree(TreeFault::Unaligned));
    }
    let mut opened = open_all(alloc, images, places, copies)?;
    let parity = match open_parity(alloc, images, places.write, &opened, fec) {
        Ok(parity) => parity,
        Err(file) => return Err(ParityRepairFault::Tree(TreeFault::Open(file))),
    };
    let sectors = opened.pair.data_image.device.sectors();
    let found = find_repaired_tree(
        alloc,
        sectors,
        &mut opened.pair.hash_image.device,
        first,
        sought,
    )?;
    let laid = lay_out(&found.tree.shape, &opened.pair, parity)?;
    mend_opened(alloc, images, places, opened, &found, laid, writer)?;
    Ok(())
}

// Repairs the open images, prints what is still lost, and closes them, whatever the result.
fn mend_opened<'a, I: Images, W: Write>(
    alloc: Global,
    images: &mut I,
    places: RepairPlaces<'a>,
    opened: Opened<'a, I::Dev>,
    found: &FoundTree,
    laid: LaidParity<I::Dev>,
    writer: &mut Counted<W>,
) -> Result<(), TreeFault<'a>>
    requires first { places.hash_first ≤ 2 ^ 55 }
    requires allowed { IsAllowed places.write (I.Dev.state opened.pair.data_image.device) (I.Dev.state opened.pair.hash_image.device) }
    requires laid { IsLaidOn laid.layout (I.Dev.state opened.pair.data_image.device) (I.Dev.state opened.pair.hash_image.device) }
    ensures ok { OnOk result (IsPairMendedByFec I.relations I.Dev.state images.old images.new places.entry opened.entry found.now laid W.contents writer.old writer.new) }
    ensures err { IfErr result (IsPairUnmendedByFec I.relations I.Dev.state images.old images.new places.entry opened.entry found.now laid W.contents writer.old writer.new) }
{
    let LaidParity { layout, device } = laid;
    let mut parity_dev = device;
    let plan = plan_at(places, found);
    let Opened {
        parts,
        pair,
        copies,
    } = opened;
    let mut image = damaged(pair, copies);
    let ended = mend(alloc, &mut image, &layout, &mut parity_dev, &plan, writer);
    let devices = devices_of(image);
    let (data, hash, told) = tell(alloc, devices, ended, found.whole, &plan, writer);
    give_back(images, places, parts, data, hash);
    told
}

// Repairs both devices, and syncs them whatever the result.
fn mend<D: SyncDev, H: SyncDev, C: BlockDev, P: BlockDev, W: Write>(
    alloc: Global,
    image: &mut DamagedImage<D, H, C>,
    layout: &Layout,
    parity_dev: &mut P,
    plan: &Plan,
    writer: &mut Counted<W>,
) -> Result<Outcome, RepairFault>
    requires first { plan.now.copy_first ≤ 2 ^ 55 }
    requires allowed { IsAllowed plan.now.write image.old.world.data_dev image.old.world.hash_dev }
    requires laid { IsLaidOn layout.now image.old.world.data_dev image.old.world.hash_dev }
    ensures parity { IsOnlyRead (P.state parity_dev.old) (P.state parity_dev.new) }
    ensures ok { IfOk result (IsMendedInPasses P.state W.contents plan.now layout.now parity_dev.old parity_dev.new image.old.world image.new.world writer.old writer.new) }
    ensures err { IfErr result (IsMendingCut W.contents plan.now (parity_use P.state layout.now parity_dev.old parity_dev.new) image.old.world image.new.world writer.old writer.new) }
{
    let ended = repair_through(alloc, image, layout, parity_dev, plan, writer);
    let synced = sync_both(image, plan.write);
    end_of(ended, synced)
}

// Repairs the image to its end, even if the writer fails.
fn repair_through<D: BlockDev, H: BlockDev, C: BlockDev, P: BlockDev, W: Write>(
    alloc: Global,
    image: &mut DamagedImage<D, H, C>,
    layout: &Layout,
    parity_dev: &mut P,
    plan: &Plan,
    writer: &mut Counted<W>,
) -> Result<Outcome, RepairFault>
    requires first { plan.now.copy_first ≤ 2 ^ 55 }
    requires allowed { IsAllowed plan.now.write image.old.world.data_dev image.old.world.hash_dev }
    requires laid { IsLaidOn layout.now image.old.world.data_dev image.old.world.hash_dev }
    ensures parity { IsOnlyRead (P.state parity_dev.old) (P.state parity_dev.new) }
    ensures ok { IfOk result (IsRunByParity P.state W.contents plan.now layout.now parity_dev.old parity_dev.new image.old.world image.new.world writer.old writer.new) }
    ensures err { IfErr result (IsRunCut W.contents plan.now (parity_use P.state layout.now parity_dev.old parity_dev.new) image.old.world image.new.world writer.old writer.new) }
{
    match repair_with_parity(alloc, image, layout, parity_dev, plan, writer) {
        Ok(outcome) => Ok(outcome),
        Err(fault) => Err(go_on(alloc, image, layout, parity_dev, plan, fault)),
    }
}

// Returns what ended a repair. If the writer failed, the image is repaired again without a writer first.
fn go_on<D: BlockDev, H: BlockDev, C: BlockDev, P: BlockDev>(
    alloc: Global,
    image: &mut DamagedImage<D, H, C>,
    layout: &Layout,
    parity_dev: &mut P,
    plan: &Plan,
    fault: RepairFault,
) -> RepairFault
    requires first { plan.now.copy_first ≤ 2 ^ 55 }
    requires allowed { IsAllowed plan.now.write image.old.world.data_dev image.old.world.hash_dev }
    requires laid { IsLaidOn layout.now image.old.world.data_dev image.old.world.hash_dev }
    ensures parity { IsOnlyRead (P.state parity_dev.old) (P.state parity_dev.new) }
    ensures ended { IsEndBehind plan.now (parity_use P.state layout.now parity_dev.old parity_dev.new) fault image.old.world image.new.world result }
{
    match fault {
        RepairFault::Image(fault) => RepairFault::Image(fault),
        RepairFault::Write => repair_unheard(alloc, image, layout, parity_dev, plan),
    }
}

// Repairs the image without a writer. The fault `Write` means that this completed.
fn repair_unheard<D: BlockDev, H: BlockDev, C: BlockDev, P: BlockDev>(
    alloc: Global,
    image: &mut DamagedImage<D, H, C>,
    layout: &Layout,
    parity_dev: &mut P,
    plan: &Plan,
) -> RepairFault
    requires first { plan.now.copy_first ≤ 2 ^ 55 }
    requires allowed { IsAllowed plan.now.write image.old.world.data_dev image.old.world.hash_dev }
    requires laid { IsLaidOn layout.now image.old.world.data_dev image.old.world.hash_dev }
    ensures parity { IsOnlyRead (P.state parity_dev.old) (P.state parity_dev.new) }
    ensures ended { IsUnheard plan.now (parity_use P.state layout.now parity_dev.old parity_dev.new) image.old.world image.new.world result }
{
    let mut nowhere = Counted::new(Nowhere);
    match repair_with_parity(alloc, image, layout, parity_dev, plan, &mut nowhere) {
        Ok(_outcome) => RepairFault::Write,
        Err(fault) => fault,
    }
}
