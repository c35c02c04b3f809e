//! Why a file of a command can't be opened.
ghost use Rattle.std.specs.Prelude.{◌≡◌};
ghost use Rattle.stack_files.specs.declared.opening_fault.OpeningFault.TheVariants as opening_fault;
ghost use Rattle.stack_files.specs.Openings.{part_ending};

use allocation::OutOfMemory;
use image_files::{UnopenedFile, UnopenedPart};

/// Why a file of a command can't be opened.
#[derive(Clone, Copy, Debug, PartialEq, Eq)]
pub enum OpeningFault<'a> {
    /// An allocation was refused.
    NoMemory,
    /// The stack file has more than 1 MiB.
    TooLong,
    /// A file can't be opened or read.
    Open(UnopenedFile<'a>),
    /// A binding's part isn't within the file at this path.
    Outside(&'a str),
}

impl From<OutOfMemory> for OpeningFault<'_> {
    ghost from_gives = { λ _ fault. fault ≡ opening_fault.NoMemory };

    fn from(_error: OutOfMemory) -> Self {
        OpeningFault::NoMemory
    }
}

impl<'a> From<UnopenedFile<'a>> for OpeningFault<'a> {
    ghost from_gives = { λ file given. given ≡ opening_fault.Open file };

    fn from(file: UnopenedFile<'a>) -> Self {
        OpeningFault::Open(file)
    }
}

impl<'a> From<UnopenedPart<'a>> for OpeningFault<'a> {
    ghost from_gives = { λ unopened given. given ≡ part_ending unopened };

    fn from(unopened: UnopenedPart<'a>) -> Self {
        match unopened {
            UnopenedPart::File(file) => OpeningFault::Open(file),
            UnopenedPart::Outside(path) => OpeningFault::Outside(path),
        }
    }
}
