//! Writes the parity of a verity image to a file, which is created, or extended if it has too few sectors.
ghost use Rattle.std.specs.Prelude.{◌≡◌, true, None, Err, IfErr, IfNone, IfSome, OnOk};
ghost use Rattle.image_files.specs.Opener.{calls};
ghost use Rattle.fec_area.specs.declared.writing.ParityFault.TheVariants as parity_fault;
ghost use Rattle.fec_commands.specs.declared.fault.FecFault.TheVariants as fec_fault;
ghost use Rattle.fec_commands.specs.Finding.{CanMake, FailsToMake};
ghost use Rattle.fec_commands.specs.Growing.{FailsToProtect, Protects, needed_of};
ghost use Rattle.fec_commands.specs.Images.{Does};
ghost use Rattle.fec_commands.specs.Layings.{IsRoots};

use crate::fault::FecFault;
use crate::protect::protect_image;
use command_line::FecFile;
use fec_area::ParityFault;
use image_commands::{ImagePlaces, TreeSource};
use image_files::{Images, UnopenedFile, grow_place};
use std::alloc::Global;

/// Checks that a file can be created at a path. If the trial fails, the file is created at once; if this fails too, its fault
/// is returned.
pub(crate) fn check_path<'a, I: Images>(
    images: &mut I,
    path: &'a str,
) -> Result<(), UnopenedFile<'a>>
    ensures ok { OnOk result (CanMake (calls I.relations I.Dev.state images.old images.new) path.now) }
    ensures err { IfErr result (FailsToMake (calls I.relations I.Dev.state images.old images.new) path.now) }
{
    match images.try_replace(path) {
        Ok(()) => Ok(()),
        Err(_) => grow_place(images, path, 0),
    }
}

// How many sectors the parity file must have, if writing failed because it has fewer.
fn needed_by(tried: &Result<(), FecFault<'_>>) -> Option<u64>
    ensures some { IfSome result (λ needed. tried.now ≡ Err (fec_fault.Parity (parity_fault.TooSmall needed))) }
    ensures none { IfNone result (needed_of tried.now ≡ None) }
{
    match tried {
        Err(FecFault::Parity(ParityFault::TooSmall { needed })) => Some(*needed),
        _ => None,
    }
}

/// Writes the parity after making sure that its file has enough sectors.
pub(crate) fn protect_growing<'a, I: Images>(
    alloc: Global,
    images: &mut I,
    places: &ImagePlaces<'a>,
    fec: &FecFile<'a>,
    source: &TreeSource,
) -> Result<(), FecFault<'a>>
    requires { IsRoots fec.now.roots }
    ensures ok { OnOk result (Does (Protects source.now true) I.relations I.Dev.state images.old images.new places.now fec.now) }
    ensures err { IfErr result (FailsToProtect source.now true I.relations I.Dev.state images.old images.new places.now fec.now) }
{
    grow_place(images, fec.path, 0)?;
    let tried = protect_image(alloc, images, places, fec, source);
    let Some(sectors) = needed_by(&tried) else {
        return tried;
    };
    grow_place(images, fec.path, sectors)?;
    protect_image(alloc, images, places, fec, source)
}
