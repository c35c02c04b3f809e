//! The sentences on commands on verity images.
ghost use Rattle.std.specs.Prelude.{◌≡◌};
ghost use Rattle.command_line.specs.FormatOptions.{text_of};
ghost use Rattle.stack_commands.specs.messages.Images.{image_message, verity_message, fec_message};

use fec_commands::FecFault;
use image_commands::ImageFault;
use manual_pages::{
    format_message, mismatch_message, open_message, parity_message, pin_message,
    unwritten_pin_message, verify_message,
};
use verity_commands::VerityFault;

/// Returns the sentence on a command on an image that ends early, if there is one: there is none on images that differ.
#[tactic(auto, unfolding(crate::specs::messages::Images::image_message))]
pub fn image_message(fault: ImageFault<'_>) -> Option<&'static str>
    ensures { text_of result ≡ image_message fault.entry }
{
    match fault {
        ImageFault::NoMemory => None,
        ImageFault::Open(file) => open_message(file.fault),
        ImageFault::Format(fault) => format_message(fault),
        ImageFault::Verify(fault) => verify_message(fault),
        ImageFault::Differs(_) => None,
        ImageFault::RootText => Some(
            "the file doesn't begin with a root hash of 64 hexadecimal digits",
        ),
        ImageFault::Unaligned => Some(
            "the tree's offset isn't a multiple of the hash block size: check '--hash-offset'",
        ),
        ImageFault::DataOverlapsTree => Some(
            "DATA and HASH are the same file: give the number of data blocks with '--blocks'",
        ),
        ImageFault::Pin(fault) => Some(pin_message(fault)),
        ImageFault::Unpinned(mismatch) => Some(mismatch_message(mismatch)),
        ImageFault::PinUnwritten(fault) => unwritten_pin_message(fault),
        ImageFault::Random => Some("the system has no random bytes: give '--salt' and '--uuid'"),
        ImageFault::Write => None,
    }
}

/// Returns the sentence on a command on verity images that ends early, if there is one.
#[tactic(auto, unfolding(crate::specs::messages::Images::verity_message))]
pub fn verity_message(fault: VerityFault<'_>) -> Option<&'static str>
    ensures { text_of result ≡ verity_message fault.entry }
{
    match fault {
        VerityFault::Usage => None,
        VerityFault::Image(fault) => image_message(fault),
    }
}

/// Returns the sentence on a command on an image with parity that ends early, if there is one. There is none if parity differs.
#[tactic(auto, unfolding(crate::specs::messages::Images::fec_message))]
pub fn fec_message(fault: FecFault<'_>) -> Option<&'static str>
    ensures { text_of result ≡ fec_message fault.entry }
{
    match fault {
        FecFault::Verity(fault) => verity_message(fault),
        FecFault::BlockSizes => Some(
            "parity needs data blocks and hash blocks of the same size: format the image anew",
        ),
        FecFault::Parity(fault) => parity_message(fault),
        FecFault::Differs(_) => None,
    }
}
