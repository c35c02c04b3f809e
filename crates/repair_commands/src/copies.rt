//! The copies that blocks are sought in.
ghost use Rattle.std.specs.Prelude.{◌≡◌, ◌++◌, ◌∷◌, [], IfErr, IfOk, OnErr, OnOk};
ghost use Rattle.allocation.specs.Refusal.{IsOutOfMemory};
ghost use Rattle.repair_commands.specs.Copies.{EachIsOpen, RefusesOne, path_in};

use allocation::{OutOfMemory, push};
use command_line::ImageCopy;
use image_files::{FileUse, Images, open_place_apart};
use std::alloc::Global;
use tree_survey::SurveyFault;
use verity_commands::TreeFault;
use verity_format::VerifyFault;

/// Opens the data of the copies, or their hashes, for reading. No copy may have a sector in common with one of `files` that is writable.
pub(crate) fn open_copies<'a, I: Images>(
    alloc: Global,
    images: &mut I,
    files: &[FileUse],
    copies: &[ImageCopy<'a>],
    hashes: bool,
) -> Result<Vec<I::Dev>, TreeFault<'a>>
    ensures ok { IfOk result (EachIsOpen I.relations I.Dev.state images.old images.new files.now hashes copies.now) }
    ensures err { IfErr result (RefusesOne I.relations I.Dev.state images.old images.new files.now hashes copies.now) }
{
    let mut devices = Vec::new(alloc);
    'copies: for copy in copies {
        let image = open_place_apart(alloc, images, files, path_in(hashes, *copy), false)?;
        let Ok(()) = add(&mut devices, image.device) else {
            return Err(TreeFault::Survey(SurveyFault::Image(VerifyFault::NoMemory)));
        };
    }
    Ok(devices)
}

fn add<D: Drop>(devices: &mut Vec<D>, device: D) -> Result<(), OutOfMemory>
    ensures ok { OnOk result (devices.new.items ≡ devices.old.items ++ device ∷ []) }
    ensures err { OnErr result (IsOutOfMemory 1) }
{
    push(devices, device)
}

fn path_in<'a>(hashes: bool, copy: ImageCopy<'a>) -> &'a str
    ensures { result.now ≡ path_in hashes copy.entry }
{
    if hashes {
        copy.hash_path
    } else {
        copy.data_path
    }
}
