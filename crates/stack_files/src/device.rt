//! A mapped device of a stack, by its name.
ghost use Rattle.std.specs.Prelude.{◌≡◌, ◌≤◌, ◌<◌, ◌^◌, length, map, true, IfOk, IfErr};
ghost use Rattle.stack_meaning.specs.Leaves.{ServeLeaves};
ghost use Rattle.stack_files.specs.NamedDevices.{FailsToFind, FailsToFindApartBy, FindsApartBy, FindsTo, HasNamed, LacksTo};

use crate::configuration::configuration_of;
use crate::stack_apart::{open_stack_apart, open_with_output};
use crate::stack_fault::StackFault;
use crate::stack_file::{OpenStack, StackFile};
use block_device::BlockDev;
use image_files::{FileUse, Images, OpenImage};
use stack_config::DevId;
use stack_engine::Stack;
use std::alloc::Global;

/// The name of a mapped device, and how many hash blocks to cache.
#[derive(Clone, Copy, Debug, PartialEq, Eq)]
pub struct NamedDevice<'a> {
    pub name: &'a str,
    pub cache: u32,
}

/// Opens the stack of a stack file over its bindings, beside a file in use, and finds the device with that name.
///
/// # Errors
///
/// The faults of `open_loaded`, and `NoSuchDevice` if the stack has no device with that name; `Open` also if a file conflicts with the
/// file in use.
pub fn open_device_apart<'a, I: Images>(
    alloc: Global,
    images: &mut I,
    used: FileUse,
    file: StackFile<'a, '_>,
    device: NamedDevice<'_>,
) -> Result<(Stack<I::Dev>, DevId), StackFault<'a>>
    ensures ok { IfOk result (FindsApartBy I.relations I.Dev.state images.old images.new used file.entry device.entry) }
    ensures there { IfOk result (λ found. found.1.0 < length found.0.config.devices) }
    ensures err { IfErr result (FailsToFindApartBy I.relations I.Dev.state images.old images.new used file.entry device.entry) }
{
    let over = open_stack_apart(alloc, images, used, file)?;
    find_device(alloc, over, device)
}

/// Opens the stack of a stack file beside a file in use, finds the device with that name, and opens an image to copy to, which
/// mustn't be the stack file or the file in use.
///
/// # Errors
///
/// The faults of `open_device_apart`; `Open` also if the image can't be opened, or is the stack file or the file in use.
pub(crate) fn open_device_and_output<'a, I: Images>(
    alloc: Global,
    images: &mut I,
    used: FileUse,
    file: StackFile<'a, '_>,
    device: NamedDevice<'_>,
    out: &'a str,
) -> Result<(Stack<I::Dev>, DevId, OpenImage<I::Dev>), StackFault<'a>>
    ensures ok { IfOk result (FindsTo I.relations I.Dev.state images.old images.new used file.entry device.entry out.now) }
    ensures there { IfOk result (λ found. found.1.0 < length found.0.config.devices) }
    ensures writable { IfOk result (λ found. (I.Dev.state found.2.device).may_write ≡ true) }
    ensures err { IfErr result (LacksTo I.relations I.Dev.state images.old images.new used file.entry device.entry out.now) }
{
    let (over, image) = open_with_output(alloc, images, used, file, out)?;
    let (stack, device) = find_device(alloc, over, device)?;
    Ok((stack, device, image))
}

/// Returns the stack of a text over the open backing devices, and its device with that name.
///
/// # Errors
///
/// The faults of `load_stack`, and `NoSuchDevice` if the stack has no device with that name.
pub fn find_device<'a, D: BlockDev + Drop>(
    alloc: Global,
    over: OpenStack<D>,
    device: NamedDevice<'_>,
) -> Result<(Stack<D>, DevId), StackFault<'a>>
    requires text { length over.text.bytes.items ≤ 2 ^ 20 }
    requires served { ServeLeaves over.leaves.items (map D.state over.devices.items) }
    ensures ok { IfOk result (HasNamed D.state over device.entry) }
    ensures there { IfOk result (λ found. found.1.0 < length found.0.config.devices) }
    ensures err { IfErr result (FailsToFind device.entry.name.now over) }
{
    let NamedDevice { name, cache } = device;
    let OpenStack {
        text,
        leaves,
        devices,
    } = over;
    let config = match configuration_of(alloc, leaves, text.bytes.as_slice()) {
        Ok(config) => config,
        Err(fault) => return Err(fault),
    };
    match config.device(name.as_bytes()) {
        Some(device) => Ok((Stack::over(alloc, config, devices, cache), device)),
        None => Err(StackFault::NoSuchDevice),
    }
}
