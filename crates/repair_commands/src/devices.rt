//! Repairs an image on two open devices, and reports what is still lost.
ghost use Rattle.std.specs.Prelude.{◌≡◌, ◌≤◌, ◌^◌, IfErr, OnOk};
ghost use Rattle.tree_repair.specs.Repairs.{IsAllowed};
ghost use Rattle.repair_commands.specs.Commands.{AreDevicesRepaired, AreDevicesUnrepaired};

use crate::counters::{Counters, counters_of};
use crate::mending::mend;
use crate::rest::tell;
use block_device::{BlockDev, SyncDev};
use program_io::Counted;
use std::alloc::Global;
use std::io::Write;
use tree_repair::{DamagedImage, Plan};
use verity_commands::TreeFault;

/// Repairs an image from its copies, syncs it, prints what is still lost, and returns the two devices of the image, and what the devices
/// counted before that was printed. `whole` is whether all hash blocks on the path to the last data block are known to hold zeros after their last used entries: if not, the
/// image is always scanned in the end.
///
/// # Errors
///
/// - `Survey` if the data or the tree don't fit on their device, before anything is written, if a write or a sync failed, or if
///   memory ran out.
/// - `Damaged` if blocks are still lost.
/// - `Write` if a line can't be written; the image is repaired to its end nevertheless.
pub fn repair_devices<'a, D: SyncDev + Drop, H: SyncDev + Drop, C: BlockDev + Drop, W: Write>(
    alloc: Global,
    image: DamagedImage<D, H, C>,
    whole: bool,
    plan: &Plan,
    writer: &mut Counted<W>,
) -> (D, H, Counters, Result<(), TreeFault<'a>>)
    requires first { plan.now.copy_first ≤ 2 ^ 55 }
    requires allowed { IsAllowed plan.now.write image.world.data_dev image.world.hash_dev }
    ensures ok { OnOk result.3 (AreDevicesRepaired D.state H.state image.world whole plan.now result.0 result.1 result.2 W.contents writer.old writer.new) }
    ensures err { IfErr result.3 (AreDevicesUnrepaired D.state H.state image.world whole plan.now result.0 result.1 result.2 W.contents writer.old writer.new) }
{
    let mut image = image;
    let ended = mend(alloc, &mut image, plan, writer);
    let counters = counters_of(&image);
    let devices = devices_of(image);
    let (data_dev, hash_dev, told) = tell(alloc, devices, ended, whole, plan, writer);
    (data_dev, hash_dev, counters, told)
}

/// Returns the two devices of an image, after its repair.
pub fn devices_of<D: BlockDev, H: BlockDev, C: BlockDev + Drop>(
    image: DamagedImage<D, H, C>,
) -> (D, H)
    ensures data { D.state result.0 ≡ image.world.data_dev }
    ensures hash { H.state result.1 ≡ image.world.hash_dev }
{
    let DamagedImage {
        data,
        hash,
        data_copies: _,
        hash_copies: _,
    } = image;
    (data, hash)
}
