//! `format --grow --fec`: opens the files that exist before any file is created or extended.
ghost use Rattle.std.specs.Prelude.{◌≡◌, IfErr, IfOk, OnOk};
ghost use Rattle.image_files.specs.OnePlace.{FailsToCompare};
ghost use Rattle.image_files.specs.Opener.{calls};
ghost use Rattle.fec_commands.specs.Finding.{CanBeNew, ComparesNew, FindsThree, IsNotNew, IsReady, IsUnfound, IsUnready, is_used};
ghost use Rattle.fec_commands.specs.Images.{Does};

use crate::growing::check_path;
use block_device::OpenFault;
use command_line::FecFile;
use image_commands::ImagePlaces;
use image_files::{
    Images, PlacedImage, UnopenedFile, find_place, has_clash, is_one_place, open_place, place_use,
};
use std::alloc::Global;

/// DATA, and HASH and the parity file if they exist, open.
#[derive(Drop)]
pub(crate) struct FoundThree<'a, D> {
    pub data: PlacedImage<'a, D>,
    pub hash: Option<PlacedImage<'a, D>>,
    pub parity: Option<PlacedImage<'a, D>>,
}

/// Opens DATA for reading, HASH if it exists, and the parity file for writing if it exists. The parity file must be neither
/// DATA nor HASH. If it doesn't exist, it must be possible to create it, and HASH mustn't be created at the same place.
pub(crate) fn find_three<'a, I: Images>(
    alloc: Global,
    images: &mut I,
    places: &ImagePlaces<'a>,
    fec: &FecFile<'a>,
) -> Result<FoundThree<'a, I::Dev>, UnopenedFile<'a>>
    ensures ok { IfOk result (Does FindsThree I.relations I.Dev.state images.old images.new places.now fec.now) }
    ensures err { IfErr result (Does IsUnfound I.relations I.Dev.state images.old images.new places.now fec.now) }
{
    let data = open_place(alloc, images, places.data, false)?;
    let hash = find_place(alloc, images, places.hash, false)?;
    let parity = find_place(alloc, images, fec.path, true)?;
    let path = fec.path;
    if is_used(&data, &hash, &parity) {
        let fault = OpenFault::SameFile;
        return Err(UnopenedFile { fault, path });
    }
    check_ready(images, &parity, &hash, path, places.hash)?;
    Ok(FoundThree { data, hash, parity })
}

// Checks that the parity file exists or can be created.
fn check_ready<'a, I: Images>(
    images: &mut I,
    parity: &Option<PlacedImage<'_, I::Dev>>,
    hash: &Option<PlacedImage<'_, I::Dev>>,
    path: &'a str,
    hash_path: &str,
) -> Result<(), UnopenedFile<'a>>
    ensures ok { OnOk result (IsReady (calls I.relations I.Dev.state images.old images.new) parity.now hash.now path.now hash_path.now) }
    ensures err { IfErr result (IsUnready (calls I.relations I.Dev.state images.old images.new) parity.now hash.now path.now hash_path.now) }
{
    match parity {
        Some(_) => Ok(()),
        None => check_new(images, hash, path, hash_path),
    }
}

// Checks that a missing parity file can be created, and won't be the same file as HASH.
fn check_new<'a, I: Images>(
    images: &mut I,
    hash: &Option<PlacedImage<'_, I::Dev>>,
    path: &'a str,
    hash_path: &str,
) -> Result<(), UnopenedFile<'a>>
    ensures ok { OnOk result (CanBeNew (calls I.relations I.Dev.state images.old images.new) hash.now path.now hash_path.now) }
    ensures err { IfErr result (IsNotNew (calls I.relations I.Dev.state images.old images.new) hash.now path.now hash_path.now) }
{
    let twice = is_made_twice(images, hash, path, hash_path)?;
    if twice {
        let fault = OpenFault::SameFile;
        return Err(UnopenedFile { fault, path });
    }
    check_path(images, path)
}

// Whether HASH is missing too, and both would be created at the same place.
fn is_made_twice<'a, I: Images>(
    images: &mut I,
    hash: &Option<PlacedImage<'_, I::Dev>>,
    path: &'a str,
    hash_path: &str,
) -> Result<bool, UnopenedFile<'a>>
    ensures ok { IfOk result (ComparesNew (calls I.relations I.Dev.state images.old images.new) hash.now path.now hash_path.now) }
    ensures err { IfErr result (FailsToCompare (calls I.relations I.Dev.state images.old images.new) path.now hash_path.now) }
{
    match hash {
        Some(_) => Ok(false),
        None => is_one_place(images, path, hash_path),
    }
}

// Whether the parity file is DATA or HASH.
fn is_used<D>(
    data: &PlacedImage<'_, D>,
    hash: &Option<PlacedImage<'_, D>>,
    parity: &Option<PlacedImage<'_, D>>,
) -> bool
    ensures { result ≡ is_used «data».now hash.now parity.now }
{
    match parity {
        None => false,
        Some(parity) => {
            let file = place_use(parity, true);
            match hash {
                None => has_clash(&[place_use(data, false)], file),
                Some(hash) => has_clash(&[place_use(data, false), place_use(hash, false)], file),
            }
        }
    }
}
