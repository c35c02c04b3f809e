//! Where an open image is.
ghost use Rattle.std.specs.Prelude.{◌≡◌};
ghost use Rattle.image_files.specs.Places.{has_own_size, is_one_image, is_one_part, place_use};

use crate::file_use::FileUse;
use crate::one_file::{is_block_device, is_one_file};
use block_device::FileId;
use device_adapters::Part;

/// The path of an image's file, and which part of the file the image is, if it isn't all.
#[derive(Clone, Copy, Debug, PartialEq, Eq)]
pub struct Place<'a> {
    pub path: &'a str,
    pub part: Option<Part>,
}

/// An image that was opened at a place, and which file it is, if that is known.
#[derive(Drop)]
pub struct PlacedImage<'a, D> {
    pub device: D,
    pub id: Option<FileId>,
    pub place: Place<'a>,
}

/// Returns how an image uses its file: for reading, or for writing too.
pub fn place_use<D>(image: &PlacedImage<'_, D>, writable: bool) -> FileUse
    ensures { result ≡ place_use writable image.now }
{
    FileUse {
        id: image.id,
        writable,
        part: image.place.part,
    }
}

/// Whether an image has a size of its own, so that it can't be made longer: a block device, as far as the system reports it, or a
/// part of a file.
pub fn has_own_size<D>(image: &PlacedImage<'_, D>) -> bool
    ensures { result ≡ has_own_size image.now }
{
    is_block_device(image.id) || image.place.part.is_some()
}

/// Whether both are one part of one file.
pub fn is_one_image<D>(a: &PlacedImage<'_, D>, b: &PlacedImage<'_, D>) -> bool
    ensures { result ≡ is_one_image a.now b.now }
{
    is_one_file(a.id, b.id) && is_one_part(a.place.part, b.place.part)
}

// Without a part it is all of the file.
fn is_one_part(a: Option<Part>, b: Option<Part>) -> bool
    ensures { result ≡ is_one_part a b }
{
    match (a, b) {
        (None, None) => true,
        (Some(a), Some(b)) => a.first == b.first && a.count == b.count,
        _ => false,
    }
}
