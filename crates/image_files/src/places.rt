//! Opens, closes and resizes images at the places that a command line names.
ghost use Rattle.std.specs.Prelude.{◌≡◌, IfErr, IfOk, IfSome, OnOk};
ghost use Rattle.image_files.specs.Opener.{IsFresh, calls};
ghost use Rattle.image_files.specs.OpenPlaces.{ClosesPlace, FailsToGrowFile, FailsToGrowPlace, FailsToShrinkFile, FailsToShrinkPlace, FindsPlace, FindsWhole, GrowsFile, GrowsPlace, IsUntold, OpensPlace, OpensPlaceApart, RefusesPlace, RefusesPlaceApart, RefusesWhole, ShrinksFile, ShrinksPlace, TellsName, TellsThere, is_missing};

use crate::file_use::{FileUse, has_clash};
use crate::images::Images;
use crate::named_parts::open_named;
use crate::opening::UnopenedFile;
use crate::placed_image::{Place, PlacedImage, place_use};
use block_device::{BlockDev, OpenFault};
use command_line::file_place_of;
use std::alloc::Global;

/// Opens the image that an argument names, for writing too if `writable` is set: the file under the whole argument or, only if
/// there is none, the part or the partition of a file that it names (`file_place_of`).
///
/// # Errors
///
/// `UnopenedFile` with the argument and the opener's fault. The fault is `NotFound` also if the part isn't inside its file, or if the
/// argument names no partition of the file, or more than one.
pub fn open_place<'a, I: Images>(
    alloc: Global,
    images: &mut I,
    text: &'a str,
    writable: bool,
) -> Result<PlacedImage<'a, I::Dev>, UnopenedFile<'a>>
    ensures ok { IfOk result (OpensPlace (calls I.relations I.Dev.state images.old images.new) text.now writable) }
    ensures fresh { IfOk result (λ image. IsFresh (I.Dev.state image.device) writable) }
    ensures err { IfErr result (RefusesPlace (calls I.relations I.Dev.state images.old images.new) text.now writable) }
{
    match find_whole(images, text, writable) {
        Ok(Some(image)) => Ok(image),
        Ok(None) => open_named(alloc, images, text, writable),
        Err(file) => Err(file),
    }
}

/// Opens the image that an argument names, beside files that are open already.
///
/// # Errors
///
/// Those of `open_place`, and `SameFile` if the image has a sector in common with one of these files, and one of the two may be
/// written.
pub fn open_place_apart<'a, I: Images>(
    alloc: Global,
    images: &mut I,
    files: &[FileUse],
    text: &'a str,
    writable: bool,
) -> Result<PlacedImage<'a, I::Dev>, UnopenedFile<'a>>
    ensures ok { IfOk result (OpensPlaceApart (calls I.relations I.Dev.state images.old images.new) files.now text.now writable) }
    ensures fresh { IfOk result (λ image. IsFresh (I.Dev.state image.device) writable) }
    ensures err { IfErr result (RefusesPlaceApart (calls I.relations I.Dev.state images.old images.new) files.now text.now writable) }
{
    let image = open_place(alloc, images, text, writable)?;
    if has_clash(files, place_use(&image, writable)) {
        let fault = OpenFault::SameFile;
        return Err(UnopenedFile { fault, path: text });
    }
    Ok(image)
}

/// Opens the image that an argument names. Returns `None` if there is no such file, and the argument names no part of another one.
///
/// # Errors
///
/// Those of `open_place`.
pub fn find_place<'a, I: Images>(
    alloc: Global,
    images: &mut I,
    text: &'a str,
    writable: bool,
) -> Result<Option<PlacedImage<'a, I::Dev>>, UnopenedFile<'a>>
    ensures ok { IfOk result (FindsPlace (calls I.relations I.Dev.state images.old images.new) text.now writable) }
    ensures err { IfErr result (RefusesPlace (calls I.relations I.Dev.state images.old images.new) text.now writable) }
{
    match file_place_of(text) {
        Some(_) => {
            let image = open_place(alloc, images, text, writable)?;
            Ok(Some(image))
        }
        None => find_whole(images, text, writable),
    }
}

// Opens the file under an argument, if there is one.
fn find_whole<'a, I: Images>(
    images: &mut I,
    text: &'a str,
    writable: bool,
) -> Result<Option<PlacedImage<'a, I::Dev>>, UnopenedFile<'a>>
    ensures ok { IfOk result (FindsWhole (calls I.relations I.Dev.state images.old images.new) text.now writable) }
    ensures fresh { IfOk result (λ found. IfSome found (λ image. IsFresh (I.Dev.state image.device) writable)) }
    ensures err { IfErr result (RefusesWhole (calls I.relations I.Dev.state images.old images.new) text.now writable) }
{
    let fault = match images.open(text, writable) {
        Ok(image) => {
            return Ok(Some(PlacedImage {
                device: image.device,
                id: image.id,
                place: Place {
                    path: text,
                    part: None,
                },
            }));
        }
        Err(fault) => fault,
    };
    if is_missing(fault) {
        return Ok(None);
    }
    Err(UnopenedFile { fault, path: text })
}

/// Returns whether a fault says that there is no such file.
pub fn is_missing(fault: OpenFault) -> bool
    ensures { result ≡ is_missing fault }
{
    matches!(fault, OpenFault::NotFound)
}

/// Closes an image at its place.
pub fn close_place<I: Images>(images: &mut I, place: Place<'_>, device: I::Dev)
    ensures { ClosesPlace (calls I.relations I.Dev.state images.old images.new) place.entry device }
{
    match place.part {
        None => images.close(place.path, device),
        Some(part) => images.close_part(place.path, part, device),
    }
}

/// Makes the file that an argument names at least so many sectors long, and creates it if there is none. A part of a file has a
/// size of its own, and stays as it is, be the file there or not.
///
/// # Errors
///
/// `UnopenedFile` with the argument and the opener's fault.
pub fn grow_place<'a, I: Images>(
    images: &mut I,
    text: &'a str,
    sectors: u64,
) -> Result<(), UnopenedFile<'a>>
    ensures ok { OnOk result (GrowsPlace (calls I.relations I.Dev.state images.old images.new) text.now sectors) }
    ensures err { IfErr result (FailsToGrowPlace (calls I.relations I.Dev.state images.old images.new) text.now sectors) }
{
    let named = names_file(images, text)?;
    if named {
        return grow_file(images, text, sectors);
    }
    Ok(())
}

/// Makes the file under an argument at least so many sectors long, and creates it if there is none, also if the argument names a part
/// of another file.
///
/// # Errors
///
/// `UnopenedFile` with the argument and the opener's fault.
pub fn grow_file<'a, I: Images>(
    images: &mut I,
    text: &'a str,
    sectors: u64,
) -> Result<(), UnopenedFile<'a>>
    ensures ok { OnOk result (GrowsFile (calls I.relations I.Dev.state images.old images.new) text.now sectors) }
    ensures err { IfErr result (FailsToGrowFile (calls I.relations I.Dev.state images.old images.new) text.now sectors) }
{
    match images.grow(text, sectors) {
        Ok(()) => Ok(()),
        Err(fault) => Err(UnopenedFile { fault, path: text }),
    }
}

/// Makes the file that an argument names at most so many sectors long. A part of a file has a size of its own, and stays as it is.
///
/// # Errors
///
/// `UnopenedFile` with the argument and the opener's fault.
pub fn shrink_place<'a, I: Images>(
    images: &mut I,
    text: &'a str,
    sectors: u64,
) -> Result<(), UnopenedFile<'a>>
    ensures ok { OnOk result (ShrinksPlace (calls I.relations I.Dev.state images.old images.new) text.now sectors) }
    ensures err { IfErr result (FailsToShrinkPlace (calls I.relations I.Dev.state images.old images.new) text.now sectors) }
{
    let named = names_file(images, text)?;
    if named {
        return shrink_file(images, text, sectors);
    }
    Ok(())
}

// Makes the file under an argument at most so many sectors long, also if the argument names a part of another file.
fn shrink_file<'a, I: Images>(
    images: &mut I,
    text: &'a str,
    sectors: u64,
) -> Result<(), UnopenedFile<'a>>
    ensures ok { OnOk result (ShrinksFile (calls I.relations I.Dev.state images.old images.new) text.now sectors) }
    ensures err { IfErr result (FailsToShrinkFile (calls I.relations I.Dev.state images.old images.new) text.now sectors) }
{
    match images.shrink(text, sectors) {
        Ok(()) => Ok(()),
        Err(fault) => Err(UnopenedFile { fault, path: text }),
    }
}

// Whether an argument names a file: there is one under it, or it names no part of another one.
fn names_file<'a, I: Images>(images: &mut I, text: &'a str) -> Result<bool, UnopenedFile<'a>>
    ensures ok { IfOk result (TellsName (calls I.relations I.Dev.state images.old images.new) text.now) }
    ensures err { IfErr result (IsUntold (calls I.relations I.Dev.state images.old images.new) text.now) }
{
    match file_place_of(text) {
        Some(_) => is_there(images, text),
        None => Ok(true),
    }
}

// Whether there is a file under an argument.
fn is_there<'a, I: Images>(images: &mut I, text: &'a str) -> Result<bool, UnopenedFile<'a>>
    ensures ok { IfOk result (TellsThere (calls I.relations I.Dev.state images.old images.new) text.now) }
    ensures err { IfErr result (IsUntold (calls I.relations I.Dev.state images.old images.new) text.now) }
{
    let fault = match images.has_part_sector(text) {
        Ok(_) => return Ok(true),
        Err(fault) => fault,
    };
    if is_missing(fault) {
        return Ok(false);
    }
    Err(UnopenedFile { fault, path: text })
}
