//! The file of the pin, which is none of the images that are updated.
ghost use Rattle.std.specs.Prelude.{◌≡◌, IfErr, OnOk};
ghost use Rattle.image_commands.specs.declared.fault.ImageFault.TheVariants.{Open};
ghost use Rattle.image_commands.specs.PinFiles.{AreApart, AreOne};
ghost use Rattle.image_files.specs.Opener.{calls};
ghost use Rattle.repair_commands.specs.Pairs.{places_of as places_as};
ghost use Rattle.update_commands.specs.Orders.{places_of};
ghost use Rattle.update_commands.specs.PinsApart.{IsPinApart, IsPinTaken, file_in};

use crate::order::UpdateOrder;
use block_device::OpenFault;
use command_line::{RootFile, RootForm};
use image_commands::{ImageFault, check_other_file};
use image_files::{Images, UnopenedFile};

/// Checks that the file of the pin is neither DATA nor HASH, whose update would overwrite it, also if a link leads to it or neither file
/// exists yet.
///
/// # Errors
///
/// `SameFile` if it is one of them, or `NoMemory` if memory ran out before that was known.
pub(crate) fn check_pin_apart<'a, I: Images>(
    images: &mut I,
    order: &UpdateOrder<'a>,
) -> Result<(), UnopenedFile<'a>>
    ensures ok { OnOk result (IsPinApart (calls I.relations I.Dev.state images.old images.new) (places_as (places_of order.now)) order.now.pin_path.now) }
    ensures err { IfErr result (IsPinTaken (calls I.relations I.Dev.state images.old images.new) (places_as (places_of order.now)) order.now.pin_path.now) }
{
    check_apart(images, order.data, order.pin_path)?;
    check_apart(images, order.hash, order.pin_path)?;
    Ok(())
}

// Checks that the file of the pin isn't the image that an argument names.
fn check_apart<'a, I: Images>(
    images: &mut I,
    image: &'a str,
    pin_path: &'a str,
) -> Result<(), UnopenedFile<'a>>
    ensures ok { OnOk result (AreApart (calls I.relations I.Dev.state images.old images.new) image.now image.now pin_path.now) }
    ensures err { IfErr result (λ file. AreOne (calls I.relations I.Dev.state images.old images.new) image.now image.now pin_path.now (Open file)) }
{
    let file = Some(RootFile {
        path: pin_path,
        form: RootForm::Pin,
    });
    match check_other_file(images, image, &file) {
        Ok(()) => Ok(()),
        Err(fault) => {
            let same = UnopenedFile {
                fault: OpenFault::SameFile,
                path: pin_path,
            };
            Err(file_in(fault, same))
        }
    }
}

// The file of a fault, or another one if the fault has none.
fn file_in<'a>(fault: ImageFault<'a>, other: UnopenedFile<'a>) -> UnopenedFile<'a>
    ensures { result ≡ file_in fault.entry other.entry }
{
    match fault {
        ImageFault::Open(file) => file,
        _ => other,
    }
}
