//! The parts of a disk, filled.
ghost use Rattle.std.specs.Prelude.{◌≡◌, ◌≤◌, IfErr, IfOk, IsTrue, OnErr, OnOk, length, true};
ghost use Rattle.device_adapters.specs.Copying.{FailsToCopy};
ghost use Rattle.image_files.specs.Opener.{IsFresh, calls};
ghost use Rattle.assemble_commands.specs.StepEnds.{EndsCopying, EndsMaking, FailsToGrow, IsPartUnopened};
ghost use Rattle.assemble_commands.specs.Steps.{CopiesPart, CopiesSynced, GrowsDisk, MakesPart, OpensDiskPart};

use crate::plan::DiskPlan;
use allocation::zeros;
use block_device::{BlockDev, DeviceFault, OpenFault, SyncDev};
use device_adapters::{Part, Progress, Watched, copy_sectors};
use image_commands::{ImageFault, MadeImage, make};
use image_files::{FileUse, Images, OpenImage, UnopenedFile, UnopenedPart, open_part};
use std::alloc::Global;
use verity_format::FormatFault;

const ROOM: usize = 65536;

/// Makes the file under a path at least so many sectors long, and creates it if there is none.
///
/// # Errors
///
/// `Open` with the opener's fault.
pub(crate) fn grow_disk<'a, I: Images>(
    images: &mut I,
    path: &'a str,
    sectors: u64,
) -> Result<(), ImageFault<'a>>
    ensures ok { OnOk result (GrowsDisk (calls I.relations I.Dev.state images.old images.new) path.now sectors) }
    ensures err { IfErr result (FailsToGrow (calls I.relations I.Dev.state images.old images.new) path.now sectors) }
{
    match images.grow(path, sectors) {
        Ok(()) => Ok(()),
        Err(fault) => Err(ImageFault::Open(UnopenedFile { fault, path })),
    }
}

/// Opens a part of the disk under a path for writing.
///
/// # Errors
///
/// `Open` if it can't be opened, or has a sector in common with one of these files.
pub(crate) fn open_disk_part<'a, I: Images>(
    images: &mut I,
    files: &[FileUse],
    path: &'a str,
    part: Part,
) -> Result<OpenImage<I::Dev>, ImageFault<'a>>
    ensures ok { IfOk result (OpensDiskPart (calls I.relations I.Dev.state images.old images.new) files.now path.now part) }
    ensures fresh { IfOk result (λ image. IsFresh (I.Dev.state image.device) true) }
    ensures err { IfErr result (IsPartUnopened (calls I.relations I.Dev.state images.old images.new) files.now path.now part) }
{
    match open_part(images, files, path, true, part) {
        Ok(image) => Ok(image),
        Err(UnopenedPart::File(file)) => Err(ImageFault::Open(file)),
        Err(UnopenedPart::Outside(path)) => {
            let fault = OpenFault::NotFound;
            Err(ImageFault::Open(UnopenedFile { fault, path }))
        }
    }
}

/// Copies the data to a part of the disk under a path, and syncs it.
///
/// # Errors
///
/// - `NoMemory` if room for 65,536 bytes was refused.
/// - `Open` if the part can't be opened.
/// - `Format` with `DataTooSmall` if the part has fewer sectors than the data, or with `Device` if a device failed.
pub(crate) fn copy_part<'a, I: Images, P: Progress>(
    alloc: Global,
    images: &mut I,
    files: &[FileUse],
    data_dev: &mut Watched<I::Dev, P>,
    path: &'a str,
    part: Part,
) -> Result<(), ImageFault<'a>>
    ensures ok { OnOk result (CopiesPart (calls I.relations I.Dev.state images.old images.new) files.now path.now part data_dev.old.inner data_dev.new.inner) }
    ensures err { IfErr result (EndsCopying (calls I.relations I.Dev.state images.old images.new) files.now path.now part data_dev.old.inner) }
{
    let mut room = zeros(alloc, ROOM)?;
    let image = open_disk_part(images, files, path, part)?;
    let mut out = image.device;
    let sectors = data_dev.sectors();
    let held = out.sectors();
    if held < sectors {
        return Err(ImageFault::Format(FormatFault::DataTooSmall));
    }
    match copy_synced(data_dev, &mut out, &mut room) {
        Ok(()) => {
            images.close_part(path, part, out);
            Ok(())
        }
        Err(_) => Err(ImageFault::Format(FormatFault::Device)),
    }
}

// Copies the data, and syncs the copy.
fn copy_synced<D: BlockDev, O: SyncDev>(
    from: &mut D,
    to: &mut O,
    room: &mut [u8],
) -> Result<(), DeviceFault>
    requires room { length room.old ≡ 65536 }
    requires fits { ((D.state from.old).size ≤ (O.state to.old).size) × IsTrue (O.state to.old).may_write }
    ensures ok { OnOk result (CopiesSynced (D.state from.old) (O.state to.old) (D.state from.new) (O.state to.new)) }
    ensures err { OnErr result (FailsToCopy (D.state from.old) (O.state to.old) (D.state from.new) (O.state to.new)) }
{
    copy_sectors(from, to, room)?;
    to.sync()
}

/// Makes the hash image in its part of the disk under a path, over the data.
///
/// # Errors
///
/// - `Open` if the part can't be opened.
/// - `Format` if the image isn't made.
pub(crate) fn make_part<'a, I: Images, P: Progress>(
    alloc: Global,
    images: &mut I,
    files: &[FileUse],
    data_dev: &mut Watched<I::Dev, P>,
    path: &'a str,
    plan: &DiskPlan,
) -> Result<MadeImage, ImageFault<'a>>
    ensures ok { IfOk result (MakesPart (calls I.relations I.Dev.state images.old images.new) files.now path.now plan.now.parts.hash data_dev.old.inner data_dev.new.inner plan.now.options) }
    ensures err { IfErr result (EndsMaking (calls I.relations I.Dev.state images.old images.new) files.now path.now data_dev.old.inner plan.now) }
{
    let image = open_disk_part(images, files, path, plan.parts.hash)?;
    let mut hash_dev = image.device;
    match make(alloc, data_dev, &mut hash_dev, plan.options) {
        Ok(made) => {
            images.close_part(path, plan.parts.hash, hash_dev);
            Ok(made)
        }
        Err(fault) => Err(ImageFault::Format(fault)),
    }
}
