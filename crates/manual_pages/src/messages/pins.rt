//! The sentences on pins.
ghost use Rattle.std.specs.Prelude.{◌≡◌};
ghost use Rattle.command_line.specs.FormatOptions.{text_of};
ghost use Rattle.manual_pages.specs.messages.Pins.{pin_message, mismatch_message, unwritten_pin_message};

use image_files::ReplaceFault;
use image_pin::{Mismatch, PinFault};

/// Returns the sentence on a file that is no pin.
#[tactic(auto, unfolding(crate::specs::messages::Pins::pin_message))]
pub fn pin_message(fault: PinFault) -> &'static str
    ensures { result.now ≡ pin_message fault }
{
    match fault {
        PinFault::Header => "the file is no pin: its first line isn't 'dmstack-pin 1'",
        PinFault::Line =>
            "a line of the pin isn't a name and a value: get the pin again from where you trust it",
        PinFault::Unknown =>
            "a line of the pin has an unknown name: get the pin again from where you trust it",
        PinFault::Repeated(_) =>
            "two lines of the pin have this name: get the pin again from where you trust it",
        PinFault::Missing(_) =>
            "no line of the pin has this name: get the pin again from where you trust it",
        PinFault::Value(_) =>
            "the pin has no valid value of this name: get the pin again from where you trust it",
        PinFault::TooLong => "the file is longer than a pin: check the path",
    }
}

/// Returns the sentence on a superblock that differs from the pin.
#[tactic(auto, unfolding(crate::specs::messages::Pins::mismatch_message))]
pub fn mismatch_message(mismatch: Mismatch) -> &'static str
    ensures { result.now ≡ mismatch_message mismatch }
{
    match mismatch {
        Mismatch::DataBlockSize =>
            "the data block size isn't that of the pin or of the other image",
        Mismatch::HashBlockSize =>
            "the hash block size isn't that of the pin or of the other image",
        Mismatch::DataBlocks =>
            "the number of data blocks isn't that of the pin: the hash image was changed, or is of another image",
        Mismatch::Salt =>
            "the salt isn't that of the pin or of the other image: format both with the same '--salt'",
    }
}

/// Returns the sentence on a pin that can't be written; `None` if memory ran out.
#[tactic(auto, unfolding(crate::specs::messages::Pins::unwritten_pin_message))]
pub fn unwritten_pin_message(fault: ReplaceFault) -> Option<&'static str>
    ensures { text_of result ≡ unwritten_pin_message fault }
{
    match fault {
        ReplaceFault::Write => Some(
            "the pin can't be written: check the space on its disk and the permissions of its directory",
        ),
        ReplaceFault::Sync => Some(
            "the pin can't be synced: 'dmesg' may say why; the image may be complete",
        ),
        ReplaceFault::Rename => Some(
            "the pin can't get its name: check the permissions of its directory; the image may be complete",
        ),
        ReplaceFault::NoMemory => None,
    }
}
