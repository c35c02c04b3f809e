//! An update that goes on without a writer after the writer failed.
ghost use Rattle.std.specs.Prelude.{true, ◌≡◌};
ghost use Rattle.tree_repair.specs.Repairs.{IsAllowed};
ghost use Rattle.update_commands.specs.Updates.{EndsMovedUnheardOf, EndsUnheardOf, IsMovesEndOf, IsUpdatedAgainOf, SealsUnheard, is_unprinted, is_write, unsealed_fault};

use crate::devices::{Target, image_of, repair_silently};
use crate::moving::move_silently;
use crate::release::{Release, plan_of};
use crate::sealing::seal;
use block_device::{BlockDev, SyncDev};
use repair_commands::{Copies, devices_of, fault_of};
use std::alloc::Global;
use tree_repair::{BlockLists, DamagedImage, RepairFault};
use tree_survey::SurveyFault;
use verity_commands::TreeFault;
use verity_format::{Superblock, VerifyFault};

/// Ends an update whose moves ended early. If the writer failed, the image is brought to the release without it first.
pub(crate) fn end_moving<'a, D: SyncDev + Drop, H: SyncDev + Drop, C: BlockDev + Drop>(
    alloc: Global,
    image: DamagedImage<D, H, C>,
    lists: &BlockLists,
    release: &Release,
    cause: RepairFault,
) -> (D, H, TreeFault<'a>)
    requires { IsAllowed true image.world.data_dev image.world.hash_dev }
    ensures { IsMovesEndOf D.state H.state image.world release.now cause result.0 result.1 result.2 }
{
    if is_unprinted(cause) {
        return update_unheard(alloc, image, lists, release);
    }
    let (data_dev, hash_dev) = devices_of(image);
    (data_dev, hash_dev, fault_of(cause))
}

// Whether the writer failed.
fn is_unprinted(fault: RepairFault) -> bool
    ensures { result ≡ is_unprinted fault }
{
    matches!(fault, RepairFault::Write)
}

/// Brings the image to the release without a writer and without copies: what the copies had is written already. If a device may not be
/// written, the cause stays.
pub(crate) fn update_again<'a, D: SyncDev + Drop, H: SyncDev + Drop>(
    alloc: Global,
    data_dev: D,
    hash_dev: H,
    release: &Release,
    cause: TreeFault<'a>,
) -> (D, H, TreeFault<'a>)
    ensures { IsUpdatedAgainOf D.state H.state data_dev hash_dev release.now cause.entry result.0 result.1 result.2 }
{
    let data_writable = data_dev.writable();
    let hash_writable = hash_dev.writable();
    if !data_writable {
        return (data_dev, hash_dev, cause);
    }
    if !hash_writable {
        return (data_dev, hash_dev, cause);
    }
    let copies: Copies<D> = Copies {
        data_copies: Vec::new(alloc),
        hash_copies: Vec::new(alloc),
    };
    let target = Target {
        data_dev,
        hash_dev,
        copies,
    };
    let image = image_of(target);
    let unlisted = BlockLists {
        own: None,
        copies: Vec::new(alloc),
    };
    update_unheard(alloc, image, &unlisted, release)
}

// Copies the blocks that moved, fetches runs, seeks all others in the copies, and writes the superblock if all blocks are valid then.
// Returns the fault: `Write` exactly if this completed.
fn update_unheard<'a, D: SyncDev + Drop, H: SyncDev + Drop, C: BlockDev + Drop>(
    alloc: Global,
    image: DamagedImage<D, H, C>,
    lists: &BlockLists,
    release: &Release,
) -> (D, H, TreeFault<'a>)
    requires { IsAllowed true image.world.data_dev image.world.hash_dev }
    ensures { EndsUnheardOf D.state H.state image.world release.now result.0 result.1 result.2 }
{
    let plan = plan_of(release);
    let mut image = image;
    match move_silently(alloc, &mut image, lists, &plan) {
        Ok(_copied) => repair_unheard(alloc, image, release),
        Err(fault) => {
            if is_unprinted(fault) {
                return repair_unheard(alloc, image, release);
            }
            let (data_dev, hash_dev) = devices_of(image);
            (data_dev, hash_dev, fault_of(fault))
        }
    }
}

// Does that once the blocks that moved are copied, as far as they are.
fn repair_unheard<'a, D: SyncDev + Drop, H: SyncDev + Drop, C: BlockDev + Drop>(
    alloc: Global,
    image: DamagedImage<D, H, C>,
    release: &Release,
) -> (D, H, TreeFault<'a>)
    requires { IsAllowed true image.world.data_dev image.world.hash_dev }
    ensures { EndsMovedUnheardOf D.state H.state image.world release.now result.0 result.1 result.2 }
{
    let plan = plan_of(release);
    let (data_dev, hash_dev, _counters, repaired) = repair_silently(alloc, image, &plan);
    match repaired {
        Ok(()) => {
            let mut sealed = hash_dev;
            let ended = seal_unheard(&mut sealed, &release.superblock);
            (data_dev, sealed, ended)
        }
        Err(fault) => (data_dev, hash_dev, unsealed_fault(fault)),
    }
}

/// Returns the fault of an update that ends without a superblock. `Write` would say that it is written, so blocks may be lost.
pub(crate) fn unsealed_fault(fault: TreeFault<'_>) -> TreeFault<'_>
    ensures { result ≡ unsealed_fault fault.entry }
{
    if is_write(fault) {
        return TreeFault::Damaged;
    }
    fault
}

fn is_write(fault: TreeFault<'_>) -> bool
    ensures { result ≡ is_write fault.entry }
{
    matches!(fault, TreeFault::Write)
}

// Writes the superblock, and returns the fault: `Write` if it is written.
fn seal_unheard<'a, H: SyncDev>(hash_dev: &mut H, superblock: &Superblock) -> TreeFault<'a>
    ensures { SealsUnheard superblock.now (H.state hash_dev.old) (H.state hash_dev.new) result }
{
    match seal(hash_dev, superblock) {
        Ok(()) => TreeFault::Write,
        Err(_) => TreeFault::Survey(SurveyFault::Image(VerifyFault::Device)),
    }
}
