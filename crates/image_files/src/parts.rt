//! Opens parts of the images that a command line names.
ghost use Rattle.std.specs.Prelude.{◌≡◌, IfOk, IfErr};
ghost use Rattle.command_line.specs.PartBindings.{part_record};
ghost use Rattle.image_files.specs.declared.parts.PartFault.TheVariants as part_fault;
ghost use Rattle.image_files.specs.Opener.{IsFresh, calls};
ghost use Rattle.image_files.specs.OpenParts.{OpensPart, RefusesPart};
ghost use Rattle.image_files.specs.Places.{device_part};

use crate::file_use::{FileUse, has_clash, part_use};
use crate::images::{Images, OpenImage};
use crate::opening::UnopenedFile;
use block_device::{BlockDev, OpenFault};
use command_line::FilePart;
use device_adapters::Part;

/// Why a part of an image isn't opened.
#[derive(Clone, Copy, Debug, PartialEq, Eq)]
pub enum PartFault {
    /// The image isn't opened.
    Open(OpenFault),
    /// The part isn't inside the image.
    Outside,
}

impl From<OpenFault> for PartFault {
    ghost from_gives = { λ fault given. given ≡ part_fault.Open fault };

    fn from(fault: OpenFault) -> Self {
        PartFault::Open(fault)
    }
}

/// A part of a file that isn't opened: why, and the file's path.
#[derive(Clone, Copy, Debug, PartialEq, Eq)]
pub enum UnopenedPart<'a> {
    /// The file isn't opened.
    File(UnopenedFile<'a>),
    /// The part isn't inside the file under this path.
    Outside(&'a str),
}

/// Returns the part that a command line names as a part of a device.
pub fn device_part(part: FilePart) -> Part
    ensures { result ≡ device_part (part_record part) }
{
    Part {
        first: part.first,
        count: part.count,
    }
}

/// Opens a part of the image under a path, beside files that are open already.
///
/// # Errors
///
/// - `File` with the opener's fault, or with `SameFile` if the part has a sector in common with one of these, and one of the two
///   may be written.
/// - `Outside` if the part isn't inside the image.
pub fn open_part<'a, I: Images>(
    images: &mut I,
    files: &[FileUse],
    path: &'a str,
    writable: bool,
    part: Part,
) -> Result<OpenImage<I::Dev>, UnopenedPart<'a>>
    ensures ok { IfOk result (OpensPart (calls I.relations I.Dev.state images.old images.new) files.now path.now writable part) }
    ensures fresh { IfOk result (λ image. IsFresh (I.Dev.state image.device) writable) }
    ensures err { IfErr result (RefusesPart (calls I.relations I.Dev.state images.old images.new) files.now path.now writable part) }
{
    let image = match images.open_part(path, writable, part) {
        Ok(image) => image,
        Err(PartFault::Open(fault)) => {
            return Err(UnopenedPart::File(UnopenedFile { fault, path }));
        }
        Err(PartFault::Outside) => return Err(UnopenedPart::Outside(path)),
    };
    if has_clash(files, part_use(&image, writable, part)) {
        let fault = OpenFault::SameFile;
        return Err(UnopenedPart::File(UnopenedFile { fault, path }));
    }
    Ok(image)
}
