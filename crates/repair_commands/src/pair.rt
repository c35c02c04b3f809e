//! The data image and the hash image to be repaired, each a part of its file.
ghost use Rattle.std.specs.Prelude.{◌≡◌, false, IfErr, IfOk, OnOk};
ghost use Rattle.device_adapters.specs.Parts.{part_before, part_behind};
ghost use Rattle.image_commands.specs.Places.{data_end};
ghost use Rattle.image_files.specs.Opener.{IsFresh};
ghost use Rattle.repair_commands.specs.Pairs.{AreFilesOpened, AreNarrowed, IsFileUnopened, IsOverlapAt, do_clash, part_in};

use block_device::{BlockDev, OpenFault};
use device_adapters::Part;
use image_commands::{TwoImages, data_end};
use image_files::{Images, OpenImage, PlacedImage, UnopenedFile, is_clash, open_place, part_use};
use std::alloc::Global;

/// The arguments that name a data image and its hash image, the sector (of 512 bytes) of what the latter names at which the hash
/// image begins, and whether the repair may write.
#[derive(Clone, Copy, Debug, PartialEq, Eq)]
pub struct RepairPlaces<'a> {
    pub data: &'a str,
    pub hash: &'a str,
    pub hash_first: u64,
    pub write: bool,
}

/// The parts of the two files that are the data image and the hash image, and the paths of these files.
#[derive(Clone, Copy, Debug, PartialEq, Eq)]
pub struct Parts<'a> {
    pub data_path: &'a str,
    pub data_part: Part,
    pub hash_path: &'a str,
    pub hash_part: Part,
}

/// The two images, open.
#[derive(Drop)]
pub struct Pair<D> {
    pub data_image: OpenImage<D>,
    pub hash_image: OpenImage<D>,
}

/// Opens both images, each once, for writing too if the repair may write.
pub(crate) fn open_files<'a, I: Images>(
    alloc: Global,
    images: &mut I,
    places: RepairPlaces<'a>,
) -> Result<TwoImages<'a, I::Dev>, UnopenedFile<'a>>
    ensures ok { IfOk result (AreFilesOpened I.relations I.Dev.state images.old images.new places.entry) }
    ensures data_fresh { IfOk result (λ files. IsFresh (I.Dev.state files.«data».device) places.entry.write) }
    ensures hash_fresh { IfOk result (λ files. IsFresh (I.Dev.state files.hash.device) places.entry.write) }
    ensures err { IfErr result (IsFileUnopened I.relations I.Dev.state images.old images.new places.entry) }
{
    let data = open_place(alloc, images, places.data, places.write)?;
    let hash = open_place(alloc, images, places.hash, places.write)?;
    Ok(TwoImages { data, hash })
}

/// Returns the parts of the files that are repaired, by the lengths of the open images. The hash image is everything from its first
/// sector on. The data image is all that its argument names; if both are one image, it is everything before the hash image.
pub(crate) fn parts_of<'a, D: BlockDev>(two: &TwoImages<'a, D>, first: u64) -> Parts<'a>
    ensures data_part { result.data_part ≡ part_in two.now.«data».place.part (part_before (D.state two.now.«data».device) (data_end two.now first)) }
    ensures hash_part { result.hash_part ≡ part_in two.now.hash.place.part (part_behind (D.state two.now.hash.device) first) }
    ensures paths { (result.data_path.now ≡ two.now.«data».place.path.now) × (result.hash_path.now ≡ two.now.hash.place.path.now) }
{
    let end = data_end(two, first);
    Parts {
        data_path: two.data.place.path,
        data_part: part_in(two.data.place.part, Part::before(&two.data.device, end)),
        hash_path: two.hash.place.path,
        hash_part: part_in(two.hash.place.part, Part::behind(&two.hash.device, first)),
    }
}

// A part of a part, in sectors of the file. No file reaches to the sector at which the sum is cut off.
fn part_in(outer: Option<Part>, part: Part) -> Part
    ensures { result ≡ part_in outer part }
{
    match outer {
        None => part,
        Some(outer) => Part {
            first: outer.first.saturating_add(part.first),
            count: part.count,
        },
    }
}

/// Returns devices of what is repaired of the two images, which stay open.
pub(crate) fn narrow_both<I: Images>(
    images: &mut I,
    first: u64,
    files: TwoImages<'_, I::Dev>,
) -> Pair<I::Dev>
    ensures { AreNarrowed I.relations I.Dev.state images.old images.new first files.entry result }
{
    let end = data_end(&files, first);
    let data_part = Part::before(&files.data.device, end);
    let hash_part = Part::behind(&files.hash.device, first);
    let TwoImages {
        data: PlacedImage {
            device: data_dev,
            id: data_id,
            place: _,
        },
        hash: PlacedImage {
            device: hash_dev,
            id: hash_id,
            place: _,
        },
    } = files;
    let data_narrowed = images.narrow(data_dev, data_part);
    let hash_narrowed = images.narrow(hash_dev, hash_part);
    Pair {
        data_image: OpenImage {
            device: data_narrowed,
            id: data_id,
        },
        hash_image: OpenImage {
            device: hash_narrowed,
            id: hash_id,
        },
    }
}

/// Refuses two images that overlap, if the repair may write.
///
/// # Errors
///
/// `SameFile` of the argument that names the hash image.
pub(crate) fn check_parts<'a, D>(
    places: RepairPlaces<'a>,
    parts: Parts<'a>,
    pair: &Pair<D>,
) -> Result<(), UnopenedFile<'a>>
    ensures ok { OnOk result (do_clash places.entry.write parts.entry pair.now ≡ false) }
    ensures err { IfErr result (IsOverlapAt places.entry parts.entry pair.now) }
{
    let data_use = part_use(&pair.data_image, places.write, parts.data_part);
    let hash_use = part_use(&pair.hash_image, places.write, parts.hash_part);
    if is_clash(data_use, hash_use) {
        let fault = OpenFault::SameFile;
        let path = places.hash;
        return Err(UnopenedFile { fault, path });
    }
    Ok(())
}
