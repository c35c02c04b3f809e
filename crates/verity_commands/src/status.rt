//! The status of a command on verity images that ends early.
ghost use Rattle.std.specs.Prelude.{◌≡◌};
ghost use Rattle.verity_commands.specs.Endings.{verity_status};

use crate::verity_fault::VerityFault;
use image_commands::ImageFault;

const REFUSED: u8 = 1;

const USAGE: u8 = 2;

const FAULT: u8 = 3;

/// Returns the exit status: 2 for arguments that are no command, 3 for images that differ, else 1.
pub fn verity_status(fault: VerityFault<'_>) -> u8
    ensures { result ≡ verity_status fault.entry }
{
    match fault {
        VerityFault::Usage => USAGE,
        VerityFault::Image(ImageFault::Differs(_)) => FAULT,
        VerityFault::Image(_) => REFUSED,
    }
}
