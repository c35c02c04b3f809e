//! Files that are opened whole to be read, of which all or a part is used.
ghost use Rattle.std.specs.Prelude.{◌≡◌, ◌↔◌, option_map, IsTrue, IfErr, IfOk};
ghost use Rattle.command_line.specs.PartBindings.{part_record};
ghost use Rattle.image_files.specs.Opener.{calls};
ghost use Rattle.image_files.specs.Places.{device_part};
ghost use Rattle.stack_files.specs.WholeFiles.{IsWithin, NarrowsTo, OpensWholeFile, RefusesWholeFile, read_use};

use block_device::{BlockDev, FileId, OpenFault};
use command_line::FilePart;
use device_adapters::Part;
use image_files::{
    FileUse, Images, OpenImage, UnopenedFile, UnopenedPart, device_part, has_clash, open_image,
};

/// Returns how a file is used of which all or a part is only read.
pub fn read_use(id: Option<FileId>, part: Option<Part>) -> FileUse
    ensures { result ≡ read_use id part }
{
    FileUse {
        id,
        writable: false,
        part,
    }
}

/// Returns the part of a device that a binding names, if it names one.
pub fn named_part(part: Option<FilePart>) -> Option<Part>
    ensures { result ≡ option_map device_part (option_map part_record part) }
{
    match part {
        Some(part) => Some(device_part(part)),
        None => None,
    }
}

/// Opens the image under a path for reading, of which all or a part is used, beside files that are open already.
///
/// # Errors
///
/// - `File` with the opener's fault, or with `SameFile` if the part has a sector in common with one of these, which may be written.
/// - `Outside` if the part isn't inside the image.
pub fn open_whole<'a, I: Images>(
    images: &mut I,
    files: &[FileUse],
    path: &'a str,
    part: Option<Part>,
) -> Result<OpenImage<I::Dev>, UnopenedPart<'a>>
    ensures ok { IfOk result (OpensWholeFile (calls I.relations I.Dev.state images.old images.new) files.now path.now part) }
    ensures err { IfErr result (RefusesWholeFile (calls I.relations I.Dev.state images.old images.new) files.now path.now part) }
{
    let image = match open_image(images, path, false) {
        Ok(image) => image,
        Err(file) => return Err(UnopenedPart::File(file)),
    };
    if !is_within(part, &image.device) {
        return Err(UnopenedPart::Outside(path));
    }
    if has_clash(files, read_use(image.id, part)) {
        let fault = OpenFault::SameFile;
        return Err(UnopenedPart::File(UnopenedFile { fault, path }));
    }
    Ok(image)
}

// Whether the part is within the device. All of the device is.
fn is_within<D: BlockDev>(part: Option<Part>, device: &D) -> bool
    ensures { IsTrue result ↔ IsWithin (D.state device.now) part }
{
    match part {
        Some(part) => part.is_inside(device),
        None => true,
    }
}

/// Returns the part of a device, or the device itself without one.
pub fn narrow_to<I: Images>(images: &mut I, device: I::Dev, part: Option<Part>) -> I::Dev
    requires { IsWithin (I.Dev.state device) part }
    ensures { NarrowsTo (calls I.relations I.Dev.state images.old images.new) device part result }
{
    match part {
        Some(part) => images.narrow(device, part),
        None => device,
    }
}
