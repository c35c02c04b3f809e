//! Parts of files that are opened as arguments name them.
ghost use Rattle.std.specs.Prelude.{◌≡◌, IfErr, IfOk};
ghost use Rattle.image_files.specs.Opener.{IsFresh, calls};
ghost use Rattle.command_line.specs.FilePlaces.{file_place_record, named_partition_record};
ghost use Rattle.image_files.specs.OpenPlaces.{FailsToFindPartition, FailsToOpenNamed, FindsPartition, IsNamedFault, OpensAt, OpensNamed, OpensPartNamed, OpensPartition, RefusesAt, RefusesNamed, RefusesPartition, part_cause};

use crate::images::Images;
use crate::opening::UnopenedFile;
use crate::partitions::partition_part;
use crate::parts::{PartFault, device_part};
use crate::placed_image::{Place, PlacedImage};
use block_device::{BlockDev, OpenFault};
use command_line::{FilePlace, NamedPart, NamedPartition, file_place_of};
use device_adapters::Part;
use std::alloc::Global;

/// Opens the part of a file that an argument names.
///
/// # Errors
///
/// `UnopenedFile` with the argument and the opener's fault. The fault is `NotFound` also if the argument names no part, the part isn't
/// inside its file, or it names no partition of the file, or more than one.
pub(crate) fn open_named<'a, I: Images>(
    alloc: Global,
    images: &mut I,
    text: &'a str,
    writable: bool,
) -> Result<PlacedImage<'a, I::Dev>, UnopenedFile<'a>>
    ensures ok { IfOk result (OpensNamed (calls I.relations I.Dev.state images.old images.new) text.now writable) }
    ensures fresh { IfOk result (λ image. IsFresh (I.Dev.state image.device) writable) }
    ensures err { IfErr result (FailsToOpenNamed (calls I.relations I.Dev.state images.old images.new) text.now writable) }
{
    match open_said(alloc, images, text, writable) {
        Ok(image) => Ok(image),
        Err(fault) => Err(UnopenedFile { fault, path: text }),
    }
}

// Opens the part of a file that an argument names. There is none if it names no part.
fn open_said<'a, I: Images>(
    alloc: Global,
    images: &mut I,
    text: &'a str,
    writable: bool,
) -> Result<PlacedImage<'a, I::Dev>, OpenFault>
    ensures ok { IfOk result (OpensNamed (calls I.relations I.Dev.state images.old images.new) text.now writable) }
    ensures fresh { IfOk result (λ image. IsFresh (I.Dev.state image.device) writable) }
    ensures err { IfErr result (IsNamedFault (calls I.relations I.Dev.state images.old images.new) text.now writable) }
{
    match file_place_of(text) {
        Some(place) => open_part_named(alloc, images, place, writable),
        None => Err(OpenFault::NotFound),
    }
}

// Opens some sectors of a file, or a partition of it.
fn open_part_named<'a, I: Images>(
    alloc: Global,
    images: &mut I,
    place: FilePlace<'a>,
    writable: bool,
) -> Result<PlacedImage<'a, I::Dev>, OpenFault>
    ensures ok { IfOk result (OpensPartNamed (calls I.relations I.Dev.state images.old images.new) (file_place_record place.entry) writable) }
    ensures fresh { IfOk result (λ image. IsFresh (I.Dev.state image.device) writable) }
    ensures err { IfErr result (RefusesNamed (calls I.relations I.Dev.state images.old images.new) (file_place_record place.entry) writable) }
{
    let FilePlace { path, part } = place;
    match part {
        NamedPart::Sectors(part) => open_at(images, path, device_part(part), writable),
        NamedPart::Partition(named) => open_partition(alloc, images, path, named, writable),
    }
}

// Opens a partition of the disk under a path, whose partition table is read first.
fn open_partition<'a, I: Images>(
    alloc: Global,
    images: &mut I,
    path: &'a str,
    named: NamedPartition<'a>,
    writable: bool,
) -> Result<PlacedImage<'a, I::Dev>, OpenFault>
    ensures ok { IfOk result (OpensPartition (calls I.relations I.Dev.state images.old images.new) path.now (named_partition_record named.entry) writable) }
    ensures fresh { IfOk result (λ image. IsFresh (I.Dev.state image.device) writable) }
    ensures err { IfErr result (RefusesPartition (calls I.relations I.Dev.state images.old images.new) path.now (named_partition_record named.entry) writable) }
{
    let part = partition_under(alloc, images, path, named, writable)?;
    open_at(images, path, part, writable)
}

/// Returns the part of the disk under a path that is the partition which an argument names, if it may be opened for reading, or for
/// writing too.
///
/// # Errors
///
/// - The opener's fault if the disk can't be opened for reading.
/// - `NotFound` if the disk has no valid partition table, or the argument names none of its partitions, or more than one.
/// - `NotAllowed` if it is to be written, and the primary copy of the table isn't valid, a valid backup differs from it, or the master
///   boot record isn't a protective one.
/// - `OtherFault` if the disk failed, so that no copy of the table was found or, if the partition is to be written, one of these three
///   wasn't read.
/// - `NoMemory` also if an allocation was refused, so that a copy of the table wasn't read or a label not compared.
pub fn partition_under<I: Images>(
    alloc: Global,
    images: &mut I,
    path: &str,
    named: NamedPartition<'_>,
    writable: bool,
) -> Result<Part, OpenFault>
    ensures ok { IfOk result (FindsPartition (calls I.relations I.Dev.state images.old images.new) path.now (named_partition_record named.entry) writable) }
    ensures err { IfErr result (FailsToFindPartition (calls I.relations I.Dev.state images.old images.new) path.now (named_partition_record named.entry) writable) }
{
    let image = images.open(path, false)?;
    let mut disk = image.device;
    partition_part(alloc, &mut disk, named, writable)
}

// Opens a part of the file under a path.
fn open_at<'a, I: Images>(
    images: &mut I,
    path: &'a str,
    part: Part,
    writable: bool,
) -> Result<PlacedImage<'a, I::Dev>, OpenFault>
    ensures ok { IfOk result (OpensAt (calls I.relations I.Dev.state images.old images.new) path.now part writable) }
    ensures fresh { IfOk result (λ image. IsFresh (I.Dev.state image.device) writable) }
    ensures err { IfErr result (RefusesAt (calls I.relations I.Dev.state images.old images.new) path.now part writable) }
{
    match images.open_part(path, writable, part) {
        Ok(image) => Ok(PlacedImage {
            device: image.device,
            id: image.id,
            place: Place {
                path,
                part: Some(part),
            },
        }),
        Err(fault) => Err(part_cause(fault)),
    }
}

// A part that isn't inside its file is not found.
fn part_cause(fault: PartFault) -> OpenFault
    ensures { result ≡ part_cause fault }
{
    match fault {
        PartFault::Open(fault) => fault,
        PartFault::Outside => OpenFault::NotFound,
    }
}
