//! The faults of a text and their positions.
ghost use Rattle.std.specs.Prelude.{◌≡◌};
ghost use Rattle.dm_table.specs.declared.fault.ParseFault.TheVariants as parse_fault;
ghost use Rattle.dm_table.specs.TextKinds.{text_name, text_number};

use allocation::OutOfMemory;
use thiserror::Error;

/// The kind of a text's first fault. Numbers and names are part of the interface: they are printed.
#[derive(Clone, Copy, Debug, PartialEq, Eq, Error)]
#[error("{}", self.name())]
pub enum TextKind {
    /// A byte that is neither white space nor in 0x21 to 0x7e, or is a backslash.
    NotText = 1,
    /// An entry with fewer than five fields, or a table without lines.
    Fields = 2,
    /// A word that isn't the name of a mapped device, or isn't a device argument.
    Name = 3,
    /// Flags other than `ro` and `rw`.
    Flags = 4,
    /// A word that isn't a number below 2^64.
    Number = 5,
    /// An unknown target type.
    Target = 6,
    /// Too few or too many arguments.
    ArgCount = 7,
    /// A cipher that is not supported.
    Cipher = 8,
    /// A key that isn't 64 or 128 hexadecimal digits.
    Key = 9,
    /// A version of the hash format other than 1.
    Version = 10,
    /// A block size other than 512, 1024, 2048 and 4096.
    BlockSize = 11,
    /// A hash algorithm that is not supported.
    Algorithm = 12,
    /// A root hash that isn't 64 hexadecimal digits.
    Digest = 13,
    /// A salt that is neither `-` nor an even number of hexadecimal digits from 2 to 512.
    Salt = 14,
    /// An unknown or repeated option.
    Option = 15,
    /// A number of stripes that the target doesn't support, such as 0.
    StripeCount = 16,
    /// A chunk size that the target doesn't support, such as 0.
    ZeroChunk = 17,
    /// A stripe that isn't a number below the number of stripes.
    StripeNumber = 18,
}

impl TextKind {
    /// Returns the number that is printed, from 1 on.
    pub fn number(self) -> u8
        ensures { result ≡ text_number self }
    {
        self as u8
    }

    /// Returns the name that is printed: that of the variant.
    pub fn name(self) -> &'static str
        ensures { result.now ≡ text_name self }
    {
        match self {
            TextKind::NotText => "NotText",
            TextKind::Fields => "Fields",
            TextKind::Name => "Name",
            TextKind::Flags => "Flags",
            TextKind::Number => "Number",
            TextKind::Target => "Target",
            TextKind::ArgCount => "ArgCount",
            TextKind::Cipher => "Cipher",
            TextKind::Key => "Key",
            TextKind::Version => "Version",
            TextKind::BlockSize => "BlockSize",
            TextKind::Algorithm => "Algorithm",
            TextKind::Digest => "Digest",
            TextKind::Salt => "Salt",
            TextKind::Option => "Option",
            TextKind::StripeCount => "StripeCount",
            TextKind::ZeroChunk => "ZeroChunk",
            TextKind::StripeNumber => "StripeNumber",
        }
    }
}

/// The first fault of a text. Entries and lines are numbered from 1. A fault in a table text has entry 0; a fault
/// outside any line has line 0.
#[derive(Clone, Copy, Debug, PartialEq, Eq, Error)]
#[error("entry {entry}, line {line}: {kind}")]
pub struct TextFault {
    pub entry: u32,
    pub line: u32,
    pub kind: TextKind,
}

/// Why a text was rejected.
#[derive(Clone, Copy, Debug, PartialEq, Eq, Error)]
pub enum ParseFault {
    /// The first fault of the text.
    #[error(transparent)]
    Text(TextFault),
    /// An allocation failed.
    #[error("out of memory")]
    NoMemory,
}

impl From<OutOfMemory> for ParseFault {
    ghost from_gives = { λ _ fault. fault ≡ parse_fault.NoMemory };

    fn from(_error: OutOfMemory) -> ParseFault {
        ParseFault::NoMemory
    }
}
