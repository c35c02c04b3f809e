//! What the file of a pin holds before: nothing that is lost if the pin replaces it.
ghost use Rattle.std.specs.Prelude.{◌≡◌, IfErr, OnOk};
ghost use Rattle.image_files.specs.Opener.{calls};
ghost use Rattle.image_commands.specs.OldPins.{HasOldPin, HasOtherText, RefusesOld, ReplacesOld, old_pin_fault};

use crate::fault::ImageFault;
use command_line::RootForm;
use image_files::{Images, UnopenedFile, is_missing};
use image_pin::{MOST_BYTES, PinFault, parse_pin};

/// Checks that the file of a pin is empty or holds a pin, if there is one. The digits of a root hash replace any text.
///
/// # Errors
///
/// - `Open` if the file is there, or may be, and can't be read.
/// - `Pin` if it holds anything else.
pub(crate) fn check_old_text<'a, I: Images>(
    images: &mut I,
    form: RootForm,
    path: &'a str,
) -> Result<(), ImageFault<'a>>
    ensures ok { OnOk result (ReplacesOld (calls I.relations I.Dev.state images.old images.new) form path.now) }
    ensures err { IfErr result (RefusesOld (calls I.relations I.Dev.state images.old images.new) form path.now) }
{
    match form {
        RootForm::Digits => Ok(()),
        RootForm::Pin => check_old_pin(images, path),
    }
}

// Checks that a file is empty or holds a pin, if there is one.
fn check_old_pin<'a, I: Images>(images: &mut I, path: &'a str) -> Result<(), ImageFault<'a>>
    ensures ok { OnOk result (HasOldPin (calls I.relations I.Dev.state images.old images.new) path.now) }
    ensures err { IfErr result (HasOtherText (calls I.relations I.Dev.state images.old images.new) path.now) }
{
    let text = match images.read_text(path, MOST_BYTES + 1) {
        Ok(text) => text,
        Err(fault) => {
            if is_missing(fault) {
                return Ok(());
            }
            return Err(ImageFault::Open(UnopenedFile { fault, path }));
        }
    };
    match old_pin_fault(text.bytes.as_slice()) {
        None => Ok(()),
        Some(fault) => Err(ImageFault::Pin(fault)),
    }
}

// Why a pin doesn't replace a text.
fn old_pin_fault(text: &[u8]) -> Option<PinFault>
    ensures { result ≡ old_pin_fault text.now }
{
    if text.is_empty() {
        return None;
    }
    match parse_pin(text) {
        Ok(_) => None,
        Err(fault) => Some(fault),
    }
}
