//! Opens all that a repair reads and writes.
ghost use Rattle.std.specs.Prelude.{◌≡◌, IfErr, IfOk};
ghost use Rattle.image_files.specs.Opener.{IsFresh};
ghost use Rattle.repair_commands.specs.Openings.{AreCopiesOpened, IsAllOpened, IsCopyRefused, IsOneUnopened};
ghost use Rattle.repair_commands.specs.Pairs.{pair_uses};

use crate::copies::open_copies;
use crate::pair::{Pair, Parts, RepairPlaces, check_parts, narrow_both, open_files, parts_of};
use command_line::ImageCopy;
use image_files::{FileUse, Images, part_use};
use std::alloc::Global;
use verity_commands::TreeFault;

/// The two parts of files that are repaired, open, and the copies of each.
#[derive(Drop)]
pub struct Opened<'a, D> {
    pub parts: Parts<'a>,
    pub pair: Pair<D>,
    pub copies: Copies<D>,
}

/// The data of the copies, and their hashes.
#[derive(Drop)]
pub struct Copies<D> {
    pub data_copies: Vec<D>,
    pub hash_copies: Vec<D>,
}

/// Opens the two images once, takes what is repaired of each, and opens the copies.
///
/// # Errors
///
/// - `Open` if a file can't be opened, or conflicts with an open one.
/// - `Survey` with `NoMemory` if memory ran out.
pub fn open_all<'a, I: Images>(
    alloc: Global,
    images: &mut I,
    places: RepairPlaces<'a>,
    copies: &[ImageCopy<'a>],
) -> Result<Opened<'a, I::Dev>, TreeFault<'a>>
    ensures ok { IfOk result (IsAllOpened I.relations I.Dev.state images.old images.new places.entry copies.now) }
    ensures data_fresh { IfOk result (λ o. IsFresh (I.Dev.state o.pair.data_image.device) places.entry.write) }
    ensures hash_fresh { IfOk result (λ o. IsFresh (I.Dev.state o.pair.hash_image.device) places.entry.write) }
    ensures err { IfErr result (IsOneUnopened I.relations I.Dev.state images.old images.new places.entry copies.now) }
{
    let write = places.write;
    let whole = open_files(alloc, images, places)?;
    let parts = parts_of(&whole, places.hash_first);
    let pair = narrow_both(images, places.hash_first, whole);
    check_parts(places, parts, &pair)?;
    let files = [
        part_use(&pair.data_image, write, parts.data_part),
        part_use(&pair.hash_image, write, parts.hash_part),
    ];
    match open_both(alloc, images, &files, copies) {
        Ok(copies) => Ok(Opened {
            parts,
            pair,
            copies,
        }),
        Err(fault) => Err(fault),
    }
}

// Opens the data of all copies, and then their hashes.
fn open_both<'a, I: Images>(
    alloc: Global,
    images: &mut I,
    files: &[FileUse],
    copies: &[ImageCopy<'a>],
) -> Result<Copies<I::Dev>, TreeFault<'a>>
    ensures ok { IfOk result (AreCopiesOpened I.relations I.Dev.state images.old images.new files.now copies.now) }
    ensures err { IfErr result (IsCopyRefused I.relations I.Dev.state images.old images.new files.now copies.now) }
{
    let data_copies = open_copies(alloc, images, files, copies, false)?;
    let hash_copies = open_copies(alloc, images, files, copies, true)?;
    Ok(Copies {
        data_copies,
        hash_copies,
    })
}
