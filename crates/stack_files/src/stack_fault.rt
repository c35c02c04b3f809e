//! Why there is no stack, or no such device.
ghost use Rattle.std.specs.Prelude.{◌≡◌};
ghost use Rattle.stack_files.specs.declared.stack_fault.StackFault.TheVariants as stack_fault;
ghost use Rattle.stack_files.specs.Endings.{load_ending, opening_ending, text_ending};

use crate::opening_fault::OpeningFault;
use dm_table::{ParseFault, TextFault};
use image_files::UnopenedFile;
use stack_loader::{ConfigFault, LoadFault, Refusal};

/// Why there is no stack, or no such device.
#[derive(Clone, Copy, Debug, PartialEq, Eq)]
pub enum StackFault<'a> {
    /// Memory ran out.
    NoMemory,
    /// The stack file has more than 1 MiB.
    TooLong,
    /// A file can't be opened or read.
    Open(UnopenedFile<'a>),
    /// A binding's part isn't within the file at this path.
    Outside(&'a str),
    /// The backing devices are refused.
    Leaves(ConfigFault),
    /// The stack text has a fault.
    Text(TextFault),
    /// The load of the stack is refused.
    Load(Refusal),
    /// The stack has no device with that name.
    NoSuchDevice,
}

impl<'a> From<OpeningFault<'a>> for StackFault<'a> {
    ghost from_gives = { λ fault given. given ≡ opening_ending fault };

    fn from(fault: OpeningFault<'a>) -> Self {
        match fault {
            OpeningFault::NoMemory => StackFault::NoMemory,
            OpeningFault::TooLong => StackFault::TooLong,
            OpeningFault::Open(file) => StackFault::Open(file),
            OpeningFault::Outside(path) => StackFault::Outside(path),
        }
    }
}

impl<'a> From<UnopenedFile<'a>> for StackFault<'a> {
    ghost from_gives = { λ file given. given ≡ stack_fault.Open file };

    fn from(file: UnopenedFile<'a>) -> Self {
        StackFault::Open(file)
    }
}

impl From<ConfigFault> for StackFault<'_> {
    ghost from_gives = { λ fault given. given ≡ stack_fault.Leaves fault };

    fn from(fault: ConfigFault) -> Self {
        StackFault::Leaves(fault)
    }
}

impl From<ParseFault> for StackFault<'_> {
    ghost from_gives = { λ fault given. given ≡ text_ending fault };

    fn from(fault: ParseFault) -> Self {
        match fault {
            ParseFault::Text(fault) => StackFault::Text(fault),
            ParseFault::NoMemory => StackFault::NoMemory,
        }
    }
}

impl From<LoadFault> for StackFault<'_> {
    ghost from_gives = { λ fault given. given ≡ load_ending fault };

    fn from(fault: LoadFault) -> Self {
        match fault {
            LoadFault::Refused(refusal) => StackFault::Load(refusal),
            LoadFault::NoMemory => StackFault::NoMemory,
        }
    }
}
