//! Why a command on verity images ends early, also for its arguments.
ghost use Rattle.std.specs.Prelude.{◌≡◌};
ghost use Rattle.verity_commands.specs.declared.verity_fault.VerityFault.TheVariants as verity_fault;
ghost use Rattle.verity_commands.specs.Endings.{words_ending};

use command_line::WordsFault;
use image_commands::ImageFault;

/// Why a command on verity images ends early.
#[derive(Clone, Copy, Debug, PartialEq, Eq)]
pub enum VerityFault<'a> {
    /// The arguments are no command.
    Usage,
    /// The command on the images ended early.
    Image(ImageFault<'a>),
}

impl From<WordsFault<'_>> for VerityFault<'_> {
    ghost from_gives = { λ fault given. given ≡ words_ending fault };

    fn from(fault: WordsFault<'_>) -> Self {
        match fault {
            WordsFault::Usage(_) => VerityFault::Usage,
            WordsFault::NoMemory => VerityFault::Image(ImageFault::NoMemory),
        }
    }
}

impl<'a> From<ImageFault<'a>> for VerityFault<'a> {
    ghost from_gives = { λ fault given. given ≡ verity_fault.Image fault };

    fn from(fault: ImageFault<'a>) -> Self {
        VerityFault::Image(fault)
    }
}
