//! The image that a device is copied to.
ghost use Rattle.std.specs.Prelude.{◌≡◌, ◌≤◌, ◌<◌, ◌&&◌, length, not, true, IfOk, IfErr};
ghost use Rattle.stack_rules.specs.Names.{mapped, size};
ghost use Rattle.stack_files.specs.DeviceSources.{FindsSourceTo, source_words};
ghost use Rattle.scan_commands.specs.Copies.{FailsTo, words_beside};

use crate::recovering_fault::RecoveringFault;
use block_device::BlockDev;
use image_files::{FileUse, Images, OpenImage};
use stack_config::DevId;
use stack_engine::Stack;
use stack_files::{DeviceSource, DiskPlace, open_source_and_output};
use std::alloc::Global;

/// Opens a device of a stack file over the bindings, or a disk, and an image with room for all its sectors, beside a file in use.
pub(crate) fn open_with_room<'a, I: Images>(
    alloc: Global,
    images: &mut I,
    used: FileUse,
    source: DeviceSource<'a, '_>,
    out: &'a str,
) -> Result<(Stack<I::Dev>, DevId, OpenImage<I::Dev>), RecoveringFault<'a>>
    ensures ok { IfOk result (FindsSourceTo I.relations I.Dev.state images.old images.new used source.entry out.now) }
    ensures there { IfOk result (λ found. found.1.0 < length found.0.config.devices) }
    ensures room { IfOk result (λ found. size found.0.config (mapped found.1.0) ≤ (I.Dev.state found.2.device).size) }
    ensures writable { IfOk result (λ found. (I.Dev.state found.2.device).may_write ≡ true) }
    ensures err { IfErr result (FailsTo I.relations I.Dev.state images.old images.new used source.entry out.now) }
{
    let (stack, device, image) = open_source_and_output(alloc, images, used, source, out)?;
    let needed = stack.config().sectors(device);
    if image.device.sectors() < needed {
        return Err(RecoveringFault::OutputTooSmall { needed });
    }
    Ok((stack, device, image))
}

// Whether an image is made as long as a disk, beside a file in use. An image that a map describes isn't, since it would have zeros
// for what the map marks as recovered.
fn grows_beside(grow: bool, used: FileUse) -> bool
    ensures { result ≡ grow && not used.writable }
{
    if used.writable {
        return false;
    }
    grow
}

/// Returns what is read, of which an image isn't made as long as a disk if a map is there.
pub(crate) fn source_beside<'a, 'b>(
    used: FileUse,
    source: DeviceSource<'a, 'b>,
) -> DeviceSource<'a, 'b>
    ensures { source_words result ≡ words_beside used (source_words source.entry) }
{
    match source {
        DeviceSource::Stack { file, device } => DeviceSource::Stack { file, device },
        DeviceSource::Disk(disk) => {
            let DiskPlace { place, cache, grow } = disk;
            let grow = grows_beside(grow, used);
            DeviceSource::Disk(DiskPlace { place, cache, grow })
        }
    }
}
