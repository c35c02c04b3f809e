//! Pins and root hashes in files.
ghost use Rattle.std.specs.Prelude.{◌≡◌, ◌≤◌, option_map, IfErr, IfOk, OnOk};
ghost use Rattle.allocation.specs.Asked.{asked};
ghost use Rattle.command_line.specs.FilePlaces.{file_place_of};
ghost use Rattle.command_line.specs.RootFiles.{root_file_record};
ghost use Rattle.hex.specs.Hex.{encode_lower};
ghost use Rattle.image_files.specs.Opener.{calls};
ghost use Rattle.image_commands.specs.PinFiles.{AreApart, AreOne, CanWriteRoot, IsNoPinPath, IsOtherFile, IsPinFileEnd, IsPinPath, IsPinUnwritten, IsRootRefused, IsRootUnwritten, IsSameFile, ReadsPin, TellsId, TellsPartId, TellsPlaceId, WritesPin, WritesRoot, pin_in, pin_of_image, root_file_text};

use crate::fault::ImageFault;
use crate::format::MadeImage;
use crate::old_pin::check_old_text;
use crate::places::ImagePlaces;
use allocation::{OutOfMemory, copied};
use block_device::{FileId, OpenFault};
use command_line::{ImageOptions, RootFile, RootForm, file_place_of};
use image_files::{Images, UnopenedFile, is_one_file, is_one_place};
use image_pin::{MOST_BYTES, Pin, parse_pin, print_pin};
use std::alloc::Global;
use tree_shape::Digest;
use verity_format::Superblock;

/// `--pin FILE`: returns the pin that the file holds.
///
/// # Errors
///
/// - `Open` if the file can't be read.
/// - `Pin` if it holds no pin.
pub fn read_pin<'a, I: Images>(images: &mut I, path: &'a str) -> Result<Pin, ImageFault<'a>>
    ensures ok { IfOk result (ReadsPin (calls I.relations I.Dev.state images.old images.new) path.now) }
    ensures err { IfErr result (IsPinFileEnd (calls I.relations I.Dev.state images.old images.new) path.now) }
{
    let text = match images.read_text(path, MOST_BYTES + 1) {
        Ok(text) => text,
        Err(fault) => return Err(ImageFault::Open(UnopenedFile { fault, path })),
    };
    match parse_pin(text.bytes.as_slice()) {
        Ok(pin) => Ok(pin),
        Err(fault) => Err(ImageFault::Pin(fault)),
    }
}

/// Returns the pin of an image that was made with these options.
pub fn pin_of_image(options: &ImageOptions, made: &MadeImage) -> Pin
    ensures { result ≡ pin_of_image options.now made.now }
{
    Pin {
        root: made.root,
        salt: made.salt,
        data_block: options.data_block,
        hash_block: options.hash_block,
        blocks: made.blocks,
    }
}

/// The pin of a root hash with the values of a superblock. No hash covers the superblock, so the pin is as trusted as both sources.
pub(crate) fn pin_in(root: Digest, superblock: &Superblock) -> Pin
    ensures { result ≡ pin_in root superblock.now }
{
    Pin {
        root,
        salt: superblock.salt(),
        data_block: superblock.data_block(),
        hash_block: superblock.hash_block(),
        blocks: superblock.blocks(),
    }
}

/// Writes the pin or the root hash to the file of a format, if it has one, as `write_pin` does.
///
/// # Errors
///
/// - `Open` with `SameFile` if the file is one of the two images, or with `NoMemory` if memory ran out; of a pin also if the file can't
///   be read.
/// - `Pin` if a pin would replace something else than a pin.
/// - `NoMemory` if an allocation of at most 512 bytes was refused.
/// - `PinUnwritten` if the file can't be replaced.
pub fn write_root<'a, I: Images>(
    alloc: Global,
    images: &mut I,
    places: ImagePlaces<'a>,
    file: &Option<RootFile<'a>>,
    pin: &Pin,
) -> Result<(), ImageFault<'a>>
    ensures ok { OnOk result (WritesRoot (calls I.relations I.Dev.state images.old images.new) places.entry.data.now places.entry.hash.now (option_map root_file_record file.now) pin.now) }
    ensures err { IfErr result (IsRootUnwritten (calls I.relations I.Dev.state images.old images.new) places.entry.data.now places.entry.hash.now (option_map root_file_record file.now) pin.now) }
{
    match file {
        Some(file) => write_pin(alloc, images, places, *file, pin),
        None => Ok(()),
    }
}

// Replaces what a file holds by a pin, or by the digits of its root hash. Another process may have made the file one of the two
// images since `check_root_path`, or written it, so that is checked again.
fn write_pin<'a, I: Images>(
    alloc: Global,
    images: &mut I,
    places: ImagePlaces<'a>,
    file: RootFile<'a>,
    pin: &Pin,
) -> Result<(), ImageFault<'a>>
    ensures ok { OnOk result (WritesPin (calls I.relations I.Dev.state images.old images.new) places.entry.data.now places.entry.hash.now (root_file_record file.entry) pin.now) }
    ensures err { IfErr result (IsPinUnwritten (calls I.relations I.Dev.state images.old images.new) places.entry.data.now places.entry.hash.now (root_file_record file.entry) pin.now) }
{
    let RootFile { path, form } = file;
    check_apart(images, places, path)?;
    check_old_text(images, form, path)?;
    let text = root_file_text(alloc, form, pin)?;
    match images.replace(path, text.as_slice()) {
        Ok(()) => Ok(()),
        Err(fault) => Err(ImageFault::PinUnwritten(fault)),
    }
}

// What is written: the pin, or the digits of its root hash as veritysetup writes them, without a newline.
fn root_file_text(alloc: Global, form: RootForm, pin: &Pin) -> Result<Vec<u8>, OutOfMemory>
    ensures text { IfOk result (λ text. text.items ≡ root_file_text form pin.now) }
    ensures err { IfErr result (λ e. asked e ≤ 512) }
{
    match form {
        RootForm::Pin => print_pin(alloc, pin),
        RootForm::Digits => root_digits(alloc, pin.root),
    }
}

// The 64 hexadecimal digits of a root hash.
fn root_digits(alloc: Global, root: Digest) -> Result<Vec<u8>, OutOfMemory>
    ensures text { IfOk result (λ text. text.items ≡ encode_lower root) }
    ensures err { IfErr result (λ e. asked e ≤ 512) }
{
    let mut digits = [0u8; 2 * Digest::SIZE];
    hex::encode_to_slice(root.as_bytes(), &mut digits).unwrap();
    let text = copied(alloc, &digits)?;
    Ok(text)
}

/// Checks that a format can write a pin or a root hash to its file, if it has one, before an image is made: the file isn't one of the
/// two images, which would be replaced, also if neither exists yet, another one can be created in its folder, and a pin replaces nothing
/// else than a pin.
///
/// # Errors
///
/// - `Open` with `SameFile` if the file is one of the two images, or with `NoMemory` if memory ran out; of a pin also if the file can't
///   be read.
/// - `PinUnwritten` if no file can be created in the folder.
/// - `Pin` if a pin would replace something else than a pin.
pub fn check_root_path<'a, I: Images>(
    images: &mut I,
    places: ImagePlaces<'a>,
    file: &Option<RootFile<'a>>,
) -> Result<(), ImageFault<'a>>
    ensures ok { OnOk result (CanWriteRoot (calls I.relations I.Dev.state images.old images.new) places.entry.data.now places.entry.hash.now (option_map root_file_record file.now)) }
    ensures err { IfErr result (IsRootRefused (calls I.relations I.Dev.state images.old images.new) places.entry.data.now places.entry.hash.now (option_map root_file_record file.now)) }
{
    match file {
        Some(file) => check_pin_path(images, places, *file),
        None => Ok(()),
    }
}

/// Checks that the file of a pin or a root hash, if there is one, isn't the file that another argument names, also if neither exists
/// yet.
///
/// # Errors
///
/// `Open` with `SameFile` if both are one file, or with `NoMemory` if memory ran out.
pub fn check_other_file<'a, I: Images>(
    images: &mut I,
    other: &'a str,
    file: &Option<RootFile<'a>>,
) -> Result<(), ImageFault<'a>>
    ensures ok { OnOk result (IsOtherFile (calls I.relations I.Dev.state images.old images.new) other.now (option_map root_file_record file.now)) }
    ensures err { IfErr result (IsSameFile (calls I.relations I.Dev.state images.old images.new) other.now (option_map root_file_record file.now)) }
{
    match file {
        Some(file) => {
            let places = ImagePlaces {
                data: other,
                hash: other,
                hash_first: 0,
            };
            check_apart(images, places, file.path)
        }
        None => Ok(()),
    }
}

// Checks that a pin or a root hash can be written to a file.
fn check_pin_path<'a, I: Images>(
    images: &mut I,
    places: ImagePlaces<'a>,
    file: RootFile<'a>,
) -> Result<(), ImageFault<'a>>
    ensures ok { OnOk result (IsPinPath (calls I.relations I.Dev.state images.old images.new) places.entry.data.now places.entry.hash.now (root_file_record file.entry)) }
    ensures err { IfErr result (IsNoPinPath (calls I.relations I.Dev.state images.old images.new) places.entry.data.now places.entry.hash.now (root_file_record file.entry)) }
{
    let RootFile { path, form } = file;
    if let Err(fault) = check_apart(images, places, path) {
        return Err(fault);
    }
    match images.try_replace(path) {
        Ok(()) => check_old_text(images, form, path),
        Err(fault) => Err(ImageFault::PinUnwritten(fault)),
    }
}

// Checks that none of the two images is in the file of a pin, and that its path isn't the one at which HASH is to be made.
fn check_apart<'a, I: Images>(
    images: &mut I,
    places: ImagePlaces<'a>,
    path: &'a str,
) -> Result<(), ImageFault<'a>>
    ensures ok { OnOk result (AreApart (calls I.relations I.Dev.state images.old images.new) places.entry.data.now places.entry.hash.now path.now) }
    ensures err { IfErr result (AreOne (calls I.relations I.Dev.state images.old images.new) places.entry.data.now places.entry.hash.now path.now) }
{
    let one = is_one_place(images, path, places.hash)?;
    let pin = file_id(images, path);
    let data = place_id(images, places.data);
    let hash = place_id(images, places.hash);
    if one || is_one_file(pin, data) || is_one_file(pin, hash) {
        let fault = OpenFault::SameFile;
        return Err(ImageFault::Open(UnopenedFile { fault, path }));
    }
    Ok(())
}

// Returns which file the image is in that an argument names, if there is one and the system states it.
fn place_id<I: Images>(images: &mut I, text: &str) -> Option<FileId>
    ensures { TellsPlaceId (calls I.relations I.Dev.state images.old images.new) text.now result }
{
    match images.read_text(text, 0) {
        Ok(found) => found.id,
        Err(_) => part_id(images, text),
    }
}

// Returns which file it is of which an argument names a part, if it names one.
fn part_id<I: Images>(images: &mut I, text: &str) -> Option<FileId>
    ensures { TellsPartId (calls I.relations I.Dev.state images.old images.new) (file_place_of text.now) result }
{
    match file_place_of(text) {
        Some(place) => file_id(images, place.path),
        None => None,
    }
}

// Returns which file a path leads to, if there is one and the system states it.
fn file_id<I: Images>(images: &mut I, path: &str) -> Option<FileId>
    ensures { TellsId (calls I.relations I.Dev.state images.old images.new) path.now result }
{
    match images.read_text(path, 0) {
        Ok(text) => text.id,
        Err(_) => None,
    }
}
