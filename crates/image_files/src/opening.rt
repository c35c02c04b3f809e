//! Opens the images and texts that a command line names.
ghost use Rattle.std.specs.Prelude.{◌≤◌, length, IfOk, IfErr};
ghost use Rattle.image_files.specs.Apart.{OpensApart, RefusesApart};
ghost use Rattle.image_files.specs.OnePlace.{Compares, FailsToCompare};
ghost use Rattle.image_files.specs.Opened.{Opens, Refuses, RefusesText, TellsFile};
ghost use Rattle.image_files.specs.Opener.{IsFresh, calls};

use crate::file_use::{FileUse, has_clash, image_use};
use crate::images::{FileText, Images, OpenImage};
use block_device::{BlockDev, OpenFault};

/// A file that isn't opened, or can't be read: why, and its path.
#[derive(Clone, Copy, Debug, PartialEq, Eq)]
pub struct UnopenedFile<'a> {
    pub fault: OpenFault,
    pub path: &'a str,
}

/// Opens the image under a path, for writing too if `writable` is set.
///
/// # Errors
///
/// `UnopenedFile` with the path and the opener's fault.
pub fn open_image<'a, I: Images>(
    images: &mut I,
    path: &'a str,
    writable: bool,
) -> Result<OpenImage<I::Dev>, UnopenedFile<'a>>
    ensures ok { IfOk result (Opens (calls I.relations I.Dev.state images.old images.new) path.now writable) }
    ensures fresh { IfOk result (λ image. IsFresh (I.Dev.state image.device) writable) }
    ensures err { IfErr result (Refuses (calls I.relations I.Dev.state images.old images.new) path.now writable) }
{
    match images.open(path, writable) {
        Ok(image) => Ok(image),
        Err(fault) => Err(UnopenedFile { fault, path }),
    }
}

/// Opens the image under a path, beside files that are open already.
///
/// # Errors
///
/// `UnopenedFile` with the path and the opener's fault, or with `SameFile` if the file is one of these and one of the two may be
/// written.
pub fn open_apart<'a, I: Images>(
    images: &mut I,
    files: &[FileUse],
    path: &'a str,
    writable: bool,
) -> Result<OpenImage<I::Dev>, UnopenedFile<'a>>
    ensures ok { IfOk result (OpensApart (calls I.relations I.Dev.state images.old images.new) files.now path.now writable) }
    ensures fresh { IfOk result (λ image. IsFresh (I.Dev.state image.device) writable) }
    ensures err { IfErr result (RefusesApart (calls I.relations I.Dev.state images.old images.new) files.now path.now writable) }
{
    let image = open_image(images, path, writable)?;
    if has_clash(files, image_use(&image, writable)) {
        let fault = OpenFault::SameFile;
        return Err(UnopenedFile { fault, path });
    }
    Ok(image)
}

/// Returns at most `most` first bytes of the file under a path.
///
/// # Errors
///
/// `UnopenedFile` with the path and the opener's fault.
pub fn read_text<'a, I: Images>(
    images: &mut I,
    path: &'a str,
    most: usize,
) -> Result<FileText, UnopenedFile<'a>>
    ensures ok { IfOk result (TellsFile (calls I.relations I.Dev.state images.old images.new) path.now most) }
    ensures most { IfOk result (λ text. length text.bytes.items ≤ most) }
    ensures err { IfErr result (RefusesText (calls I.relations I.Dev.state images.old images.new) path.now most) }
{
    match images.read_text(path, most) {
        Ok(text) => Ok(text),
        Err(fault) => Err(UnopenedFile { fault, path }),
    }
}

/// Whether two paths lead to one place, be there a file or not.
///
/// # Errors
///
/// `NoMemory`, of the first path.
pub fn is_one_place<'a, I: Images>(
    images: &mut I,
    path: &'a str,
    other: &str,
) -> Result<bool, UnopenedFile<'a>>
    ensures ok { IfOk result (Compares (calls I.relations I.Dev.state images.old images.new) path.now other.now) }
    ensures err { IfErr result (FailsToCompare (calls I.relations I.Dev.state images.old images.new) path.now other.now) }
{
    match images.is_one_place(path, other) {
        Ok(one) => Ok(one),
        Err(fault) => Err(UnopenedFile { fault, path }),
    }
}
