//! Hash images that begin at a sector of a file.
ghost use Rattle.std.specs.Prelude.{◌≡◌, ◌+◌, ◌^◌, ◌<◌, true, IfOk, IfErr};
ghost use Rattle.image_files.specs.Opener.{IsFresh};
ghost use Rattle.image_commands.specs.Places.{FailsToOpenPlaces, OpensPlaces, data_end, is_shared, is_taken, overlaps, tree_start};

use crate::paths::{ImagePaths, TwoImages, open_two};
use block_device::OpenFault;
use image_files::{Images, UnopenedFile, is_clash, is_one_image, place_use};
use std::alloc::Global;

/// The arguments that name a data image and its hash image, and the sector of 512 bytes of what the latter names where the hash
/// image begins.
#[derive(Clone, Copy, Debug, PartialEq, Eq)]
pub struct ImagePlaces<'a> {
    pub data: &'a str,
    pub hash: &'a str,
    pub hash_first: u64,
}

/// The argument that names a hash image, and the sector of 512 bytes of what it names where the hash image begins.
#[derive(Clone, Copy, Debug, PartialEq, Eq)]
pub struct HashPlace<'a> {
    pub path: &'a str,
    pub first: u64,
}

/// The sector where the data end, and the one where the hash image begins.
#[derive(Clone, Copy)]
pub struct Bounds {
    pub end: u64,
    pub first: u64,
}

/// Returns the hash block of the file at which a tree begins, `ahead` blocks after sector `first`.
pub fn tree_start(first: u64, size: u32, ahead: u64) -> u64
    requires { first + ahead < 2 ^ 64 }
    ensures { result ≡ tree_start first size ahead }
{
    if size < 512 {
        return ahead;
    }
    first / u64::from(size / 512) + ahead
}

/// Opens the two images as a format does: the hash image for writing too. They may be one image if the hash image doesn't
/// begin at its first sector. Else they mustn't have a sector in common.
pub(crate) fn open_placed<'a, I: Images>(
    alloc: Global,
    images: &mut I,
    places: ImagePlaces<'a>,
) -> Result<TwoImages<'a, I::Dev>, UnopenedFile<'a>>
    ensures ok { IfOk result (OpensPlaces I.relations I.Dev.state images.old images.new places.entry) }
    ensures fresh { IfOk result (λ two. IsFresh (I.Dev.state two.hash.device) true) }
    ensures err { IfErr result (FailsToOpenPlaces I.relations I.Dev.state images.old images.new places.entry) }
{
    let ImagePlaces {
        data,
        hash,
        hash_first,
    } = places;
    let two = open_two(alloc, images, ImagePaths { data, hash }, true)?;
    if is_taken(&two, hash_first) {
        return Err(UnopenedFile {
            fault: OpenFault::SameFile,
            path: hash,
        });
    }
    Ok(two)
}

// Whether data and hash image are one image, in which the hash image begins after the first sector.
fn is_shared<D>(two: &TwoImages<'_, D>, first: u64) -> bool
    ensures { result ≡ is_shared two.now first }
{
    first > 0 && is_one_image(&two.data, &two.hash)
}

// Whether data and hash image have a sector in common otherwise.
fn is_taken<D>(two: &TwoImages<'_, D>, first: u64) -> bool
    ensures { result ≡ is_taken two.now first }
{
    is_clash(place_use(&two.data, false), place_use(&two.hash, true)) && !is_shared(two, first)
}

/// Returns the sector where the data end: the first of the hash image if both are in one image, else `u64::MAX`, which is past
/// the end of any data image.
pub fn data_end<D>(two: &TwoImages<'_, D>, first: u64) -> u64
    ensures { result ≡ data_end two.now first }
{
    if is_shared(two, first) {
        return first;
    }
    u64::MAX
}

/// Whether a format would take all that lies before the hash image in one image as data.
pub(crate) fn overlaps<D>(two: &TwoImages<'_, D>, first: u64, blocks: Option<u64>) -> bool
    ensures { result ≡ overlaps two.now first blocks }
{
    blocks.is_none() && is_shared(two, first)
}
