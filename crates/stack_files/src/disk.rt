//! A disk that is read without a stack file: the stack of one device, which is all of the disk.
ghost use Rattle.std.specs.Prelude.{◌≡◌, ◌<◌, length, true, IfErr, IfOk, OnOk};
ghost use Rattle.image_files.specs.Opener.{calls};
ghost use Rattle.stack_files.specs.Disks.{FailsToFindDiskBy, FailsToMakeRoom, FailsToOpenDisk, FindsDiskBy, FindsDiskTo, IsDiskStack, IsUnmade, LacksDiskTo, LacksOutput, MakesRoom, OpensDisk, OpensWithRoom};

use crate::device::{NamedDevice, find_device};
use crate::disk_entries::push_linear_entry;
use crate::leaves::OpenLeaves;
use crate::opening_fault::OpeningFault;
use crate::stack_fault::StackFault;
use crate::stack_file::OpenStack;
use block_device::BlockDev;
use device_adapters::Part;
use image_files::{
    FileText, FileUse, Images, OpenImage, UnopenedFile, grow_file, open_apart, open_place_apart,
    place_use,
};
use stack_config::DevId;
use stack_engine::Stack;
use std::alloc::Global;

/// A file, a device or a part of one, how many hash blocks to cache, and whether an image that it is copied to is made as long as it
/// is.
#[derive(Clone, Copy, Debug, PartialEq, Eq)]
pub struct DiskPlace<'a> {
    pub place: &'a str,
    pub cache: u32,
    pub grow: bool,
}

// The stack text of an open disk, and the disk as its backing device.
fn disk_stack<'a, D: BlockDev + Drop>(
    alloc: Global,
    disk: D,
) -> Result<OpenStack<D>, OpeningFault<'a>>
    ensures ok { IfOk result (IsDiskStack D.state disk) }
    ensures err { IfErr result IsUnmade }
{
    let count = disk.sectors();
    let mut bytes = Vec::new(alloc);
    push_linear_entry(&mut bytes, false, b"disk", Part { first: 0, count })?;
    let mut over = OpenLeaves::new(alloc);
    over.bind(alloc, "DISK", disk)?;
    let OpenLeaves { leaves, devices } = over;
    let text = FileText { bytes, id: None };
    Ok(OpenStack {
        text,
        leaves,
        devices,
    })
}

// Opens a disk for reading beside a file in use, with its stack text.
fn open_over<'a, I: Images>(
    alloc: Global,
    images: &mut I,
    used: FileUse,
    place: &'a str,
) -> Result<OpenStack<I::Dev>, OpeningFault<'a>>
    ensures ok { IfOk result (OpensDisk (calls I.relations I.Dev.state images.old images.new) used place.now) }
    ensures err { IfErr result (FailsToOpenDisk (calls I.relations I.Dev.state images.old images.new) used place.now) }
{
    let disk = open_place_apart(alloc, images, &[used], place, false)?;
    disk_stack(alloc, disk.device)
}

// Makes the file of an image so long, if `grow` is set.
fn make_room<'a, I: Images>(
    images: &mut I,
    grow: bool,
    out: &'a str,
    sectors: u64,
) -> Result<(), UnopenedFile<'a>>
    ensures ok { OnOk result (MakesRoom (calls I.relations I.Dev.state images.old images.new) grow out.now sectors) }
    ensures err { IfErr result (FailsToMakeRoom (calls I.relations I.Dev.state images.old images.new) grow out.now sectors) }
{
    if grow {
        return grow_file(images, out, sectors);
    }
    Ok(())
}

// Opens an image to copy to, which mustn't be one of these files. If `grow` is set, its file is made so long before.
fn open_output<'a, I: Images>(
    images: &mut I,
    files: &[FileUse],
    grow: bool,
    out: &'a str,
    sectors: u64,
) -> Result<OpenImage<I::Dev>, UnopenedFile<'a>>
    ensures ok { IfOk result (OpensWithRoom (calls I.relations I.Dev.state images.old images.new) files.now grow out.now sectors) }
    ensures writable { IfOk result (λ image. (I.Dev.state image.device).may_write ≡ true) }
    ensures err { IfErr result (LacksOutput (calls I.relations I.Dev.state images.old images.new) files.now grow out.now sectors) }
{
    make_room(images, grow, out, sectors)?;
    open_apart(images, files, out, true)
}

/// Opens a disk for reading beside a file in use, and returns the stack of one device, which is all of it.
///
/// # Errors
///
/// - `NoMemory` if an allocation was refused.
/// - `Open` if the disk can't be opened, or conflicts with the file in use.
/// - `Text` or `Load` if there is no such device, as of a disk of no sectors.
pub(crate) fn open_disk<'a, I: Images>(
    alloc: Global,
    images: &mut I,
    used: FileUse,
    disk: DiskPlace<'a>,
) -> Result<(Stack<I::Dev>, DevId), StackFault<'a>>
    ensures ok { IfOk result (FindsDiskBy I.relations I.Dev.state images.old images.new used disk.entry) }
    ensures there { IfOk result (λ found. found.1.0 < length found.0.config.devices) }
    ensures err { IfErr result (FailsToFindDiskBy I.relations I.Dev.state images.old images.new used disk.entry) }
{
    let cache = disk.cache;
    let over = open_over(alloc, images, used, disk.place)?;
    find_device(
        alloc,
        over,
        NamedDevice {
            name: "disk",
            cache,
        },
    )
}

/// Opens a disk as `open_disk` does, and then an image to copy to, which mustn't have a sector of the disk or be the file in use. With
/// `grow` the image's file is made as long as the disk before it is opened, and created if there is none.
///
/// # Errors
///
/// The faults of `open_disk`; `Open` also if the image can't be made so long or opened, has a sector of the disk, or is the file in
/// use.
pub(crate) fn open_disk_and_output<'a, I: Images>(
    alloc: Global,
    images: &mut I,
    used: FileUse,
    disk: DiskPlace<'a>,
    out: &'a str,
) -> Result<(Stack<I::Dev>, DevId, OpenImage<I::Dev>), StackFault<'a>>
    ensures ok { IfOk result (FindsDiskTo I.relations I.Dev.state images.old images.new used disk.entry out.now) }
    ensures there { IfOk result (λ found. found.1.0 < length found.0.config.devices) }
    ensures writable { IfOk result (λ found. (I.Dev.state found.2.device).may_write ≡ true) }
    ensures err { IfErr result (LacksDiskTo I.relations I.Dev.state images.old images.new used disk.entry out.now) }
{
    let cache = disk.cache;
    let opened = open_place_apart(alloc, images, &[used], disk.place, false)?;
    let files = [place_use(&opened, false), used];
    let sectors = opened.device.sectors();
    let over = disk_stack(alloc, opened.device)?;
    let (stack, device) = find_device(
        alloc,
        over,
        NamedDevice {
            name: "disk",
            cache,
        },
    )?;
    let image = open_output(images, &files, disk.grow, out, sectors)?;
    Ok((stack, device, image))
}
