//! Brings an image on two open devices to a release.
ghost use Rattle.std.specs.Prelude.{◌≡◌, ◌≤◌, ◌^◌, IfErr, OnOk, true};
ghost use Rattle.tree_repair.specs.Repairs.{IsAllowed};
ghost use Rattle.update_commands.specs.Repaired.{AreRepairedAloud, AreRepairedSilently, AreUnrepairedAloud, AreUnrepairedSilently};
ghost use Rattle.update_commands.specs.Updates.{AreBegunUnupdated, AreBegunUpdated, AreMovedUnupdated, AreMovedUpdated, AreUnupdated, AreUpdated, FinishesOf, IsUnfinishedOf, target_world};

use crate::beginning::begin;
use crate::counts::{Counts, Tally, counts_of, say_counts, say_losses};
use crate::listing::list_all;
use crate::moving::move_listed;
use crate::release::{Release, plan_of};
use crate::sealing::seal;
use crate::unheard::{end_moving, unsealed_fault, update_again};
use block_device::{BlockDev, SyncDev};
use program_io::Counted;
use repair_commands::{Copies, Counters, Nowhere, counters_of, repair_devices};
use std::alloc::Global;
use std::io::Write;
use tree_repair::{BlockLists, DamagedImage, Plan};
use tree_survey::SurveyFault;
use verity_commands::TreeFault;
use verity_format::{Superblock, VerifyFault};

/// The open devices of an image that is updated, and of its copies.
#[derive(Drop)]
pub(crate) struct Target<D, H, C> {
    pub data_dev: D,
    pub hash_dev: H,
    pub copies: Copies<C>,
}

/// Brings an image to a release: lists its blocks and those of the copies, clears its superblock, copies the blocks that moved, seeks each block that isn't the
/// release's in the copies, writes and syncs what was found, and writes the superblock only if all blocks are valid then. Returns the two
/// devices of the image.
///
/// # Errors
///
/// - `Survey` if the release doesn't fit on the devices, before anything is written, if a device failed, or memory ran out.
/// - `Damaged` if blocks are lost.
/// - `Write` if a line can't be written; the image is brought to the release nevertheless.
pub(crate) fn update_devices<
    'a,
    D: SyncDev + Drop,
    H: SyncDev + Drop,
    C: BlockDev + Drop,
    W: Write,
>(
    alloc: Global,
    target: Target<D, H, C>,
    release: &Release,
    no_index: bool,
    json: bool,
    writer: &mut Counted<W>,
) -> (D, H, Result<(), TreeFault<'a>>)
    requires { IsAllowed true (D.state target.data_dev) (H.state target.hash_dev) }
    ensures ok { OnOk result.2 (AreUpdated D.state H.state C.state target release.now no_index json result.0 result.1 W.contents writer.old writer.new) }
    ensures err { IfErr result.2 (AreUnupdated D.state H.state C.state target release.now no_index json result.0 result.1 W.contents writer.old writer.new) }
{
    let Target {
        data_dev,
        hash_dev,
        copies,
    } = target;
    let Copies {
        data_copies,
        hash_copies,
    } = copies;
    let mut cleared = hash_dev;
    let mut seen = hash_copies;
    let lists = list_all(
        alloc,
        no_index,
        &mut cleared,
        &mut seen,
        &release.superblock,
    );
    match begin(&data_dev, &mut cleared, &release.superblock) {
        Ok(()) => {
            let begun = Target {
                data_dev,
                hash_dev: cleared,
                copies: Copies {
                    data_copies,
                    hash_copies: seen,
                },
            };
            update_begun(alloc, begun, &lists, release, json, writer)
        }
        Err(fault) => (data_dev, cleared, Err(fault)),
    }
}

// Brings the image to the release, once its superblock is cleared: copies the blocks that moved first.
fn update_begun<'a, D: SyncDev + Drop, H: SyncDev + Drop, C: BlockDev + Drop, W: Write>(
    alloc: Global,
    target: Target<D, H, C>,
    lists: &BlockLists,
    release: &Release,
    json: bool,
    writer: &mut Counted<W>,
) -> (D, H, Result<(), TreeFault<'a>>)
    requires { IsAllowed true (D.state target.data_dev) (H.state target.hash_dev) }
    ensures ok { OnOk result.2 (AreBegunUpdated D.state H.state C.state target release.now json result.0 result.1 W.contents writer.old writer.new) }
    ensures err { IfErr result.2 (AreBegunUnupdated D.state H.state C.state target release.now json result.0 result.1 W.contents writer.old writer.new) }
{
    let plan = plan_of(release);
    let mut image = image_of(target);
    let before = counters_of(&image);
    match move_listed(alloc, &mut image, lists, &plan, json, writer) {
        Ok(copied) => {
            let tally = Tally { before, copied };
            update_moved(alloc, image, &tally, release, json, writer)
        }
        Err(fault) => {
            let (data_dev, hash_dev, ended) = end_moving(alloc, image, lists, release, fault);
            (data_dev, hash_dev, Err(ended))
        }
    }
}

// Brings the image to the release, once the blocks that moved are copied.
fn update_moved<'a, D: SyncDev + Drop, H: SyncDev + Drop, C: BlockDev + Drop, W: Write>(
    alloc: Global,
    image: DamagedImage<D, H, C>,
    tally: &Tally,
    release: &Release,
    json: bool,
    writer: &mut Counted<W>,
) -> (D, H, Result<(), TreeFault<'a>>)
    requires { IsAllowed true image.world.data_dev image.world.hash_dev }
    ensures ok { OnOk result.2 (AreMovedUpdated D.state H.state image.world tally.now release.now json result.0 result.1 W.contents writer.old writer.new) }
    ensures err { IfErr result.2 (AreMovedUnupdated D.state H.state image.world tally.now release.now json result.0 result.1 W.contents writer.old writer.new) }
{
    let plan = plan_of(release);
    let (data_dev, hash_dev, after, repaired) = repair_aloud(alloc, image, &plan, json, writer);
    let counts = counts_of(&plan.tree.shape, tally, &after);
    match repaired {
        Ok(()) => {
            let mut sealed = hash_dev;
            let superblock = &release.superblock;
            let ended = finish(alloc, &mut sealed, superblock, &counts, json, writer);
            (data_dev, sealed, ended)
        }
        Err(fault) => {
            if writer.failed() {
                let (data_again, hash_again, ended) = update_again(
                    alloc, data_dev, hash_dev, release, fault,
                );
                return (data_again, hash_again, Err(ended));
            }
            let ended = unsealed_fault(fault);
            say_losses(alloc, &counts, json, ended, writer);
            (data_dev, hash_dev, Err(ended))
        }
    }
}

// The image that is repaired.
pub(crate) fn image_of<D: BlockDev, H: BlockDev, C: BlockDev>(
    target: Target<D, H, C>,
) -> DamagedImage<D, H, C>
    ensures { result.world ≡ target_world D.state H.state C.state target }
{
    let Target {
        data_dev,
        hash_dev,
        copies,
    } = target;
    let Copies {
        data_copies,
        hash_copies,
    } = copies;
    DamagedImage {
        data: data_dev,
        hash: hash_dev,
        data_copies,
        hash_copies,
    }
}

// Repairs the image, prints what `repair` prints, and returns what the devices counted. For a JSON object nothing is printed.
fn repair_aloud<'a, D: SyncDev + Drop, H: SyncDev + Drop, C: BlockDev + Drop, W: Write>(
    alloc: Global,
    image: DamagedImage<D, H, C>,
    plan: &Plan,
    json: bool,
    writer: &mut Counted<W>,
) -> (D, H, Counters, Result<(), TreeFault<'a>>)
    requires first { plan.now.copy_first ≤ 2 ^ 55 }
    requires allowed { IsAllowed plan.now.write image.world.data_dev image.world.hash_dev }
    ensures ok { OnOk result.3 (AreRepairedAloud D.state H.state image.world plan.now json result.0 result.1 result.2 W.contents writer.old writer.new) }
    ensures err { IfErr result.3 (AreUnrepairedAloud D.state H.state image.world plan.now json result.0 result.1 result.2 W.contents writer.old writer.new) }
{
    if json {
        return repair_silently(alloc, image, plan);
    }
    repair_devices(alloc, image, true, plan, writer)
}

// Repairs the image, and prints nothing.
pub(crate) fn repair_silently<'a, D: SyncDev + Drop, H: SyncDev + Drop, C: BlockDev + Drop>(
    alloc: Global,
    image: DamagedImage<D, H, C>,
    plan: &Plan,
) -> (D, H, Counters, Result<(), TreeFault<'a>>)
    requires first { plan.now.copy_first ≤ 2 ^ 55 }
    requires allowed { IsAllowed plan.now.write image.world.data_dev image.world.hash_dev }
    ensures ok { OnOk result.3 (AreRepairedSilently D.state H.state image.world plan.now result.0 result.1 result.2) }
    ensures err { IfErr result.3 (AreUnrepairedSilently D.state H.state image.world plan.now result.0 result.1 result.2) }
{
    let mut nowhere = Counted::new(Nowhere);
    repair_devices(alloc, image, true, plan, &mut nowhere)
}

// Writes the superblock, and prints the counts.
fn finish<'a, H: SyncDev, W: Write>(
    alloc: Global,
    hash_dev: &mut H,
    superblock: &Superblock,
    counts: &Counts,
    json: bool,
    writer: &mut Counted<W>,
) -> Result<(), TreeFault<'a>>
    ensures ok { OnOk result (FinishesOf H.state superblock.now counts.now json hash_dev.old hash_dev.new W.contents writer.old writer.new) }
    ensures err { IfErr result (IsUnfinishedOf H.state superblock.now json hash_dev.old hash_dev.new W.contents writer.old writer.new) }
{
    match seal(hash_dev, superblock) {
        Ok(()) => say_counts(alloc, counts, json, writer),
        Err(_) => Err(TreeFault::Survey(SurveyFault::Image(VerifyFault::Device))),
    }
}
