//! The device that a command reads: one of a stack file, or a disk without one.
ghost use Rattle.std.specs.Prelude.{◌≡◌, ◌<◌, length, true, IfErr, IfOk};
ghost use Rattle.stack_files.specs.DeviceSources.{FailsToFindSourceBy, FindsSourceBy, FindsSourceTo, LacksSourceTo};

use crate::device::{NamedDevice, open_device_and_output, open_device_apart};
use crate::disk::{DiskPlace, open_disk, open_disk_and_output};
use crate::stack_fault::StackFault;
use crate::stack_file::StackFile;
use image_files::{FileUse, Images, OpenImage};
use stack_config::DevId;
use stack_engine::Stack;
use std::alloc::Global;

/// The device that a command reads.
#[derive(Clone, Copy)]
pub enum DeviceSource<'a, 'b> {
    /// A mapped device of a stack file, by its name.
    Stack {
        file: StackFile<'a, 'b>,
        device: NamedDevice<'a>,
    },
    /// All of a file, a device or a part of one.
    Disk(DiskPlace<'a>),
}

/// Opens what a command reads, beside a file in use, and returns the stack and the device.
///
/// # Errors
///
/// The faults of `open_device_apart` or `open_disk`.
pub fn open_source<'a, I: Images>(
    alloc: Global,
    images: &mut I,
    used: FileUse,
    source: DeviceSource<'a, '_>,
) -> Result<(Stack<I::Dev>, DevId), StackFault<'a>>
    ensures ok { IfOk result (FindsSourceBy I.relations I.Dev.state images.old images.new used source.entry) }
    ensures there { IfOk result (λ found. found.1.0 < length found.0.config.devices) }
    ensures err { IfErr result (FailsToFindSourceBy I.relations I.Dev.state images.old images.new used source.entry) }
{
    match source {
        DeviceSource::Stack { file, device } => open_device_apart(
            alloc, images, used, file, device,
        ),
        DeviceSource::Disk(disk) => open_disk(alloc, images, used, disk),
    }
}

/// Opens what a command reads, and an image to copy to, beside a file in use.
///
/// # Errors
///
/// The faults of `open_device_and_output` or `open_disk_and_output`.
pub fn open_source_and_output<'a, I: Images>(
    alloc: Global,
    images: &mut I,
    used: FileUse,
    source: DeviceSource<'a, '_>,
    out: &'a str,
) -> Result<(Stack<I::Dev>, DevId, OpenImage<I::Dev>), StackFault<'a>>
    ensures ok { IfOk result (FindsSourceTo I.relations I.Dev.state images.old images.new used source.entry out.now) }
    ensures there { IfOk result (λ found. found.1.0 < length found.0.config.devices) }
    ensures writable { IfOk result (λ found. (I.Dev.state found.2.device).may_write ≡ true) }
    ensures err { IfErr result (LacksSourceTo I.relations I.Dev.state images.old images.new used source.entry out.now) }
{
    match source {
        DeviceSource::Stack { file, device } => {
            open_device_and_output(alloc, images, used, file, device, out)
        }
        DeviceSource::Disk(disk) => open_disk_and_output(alloc, images, used, disk, out),
    }
}
