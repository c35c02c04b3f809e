//! Why Linux refuses a configuration, or reads other bytes.
ghost use Rattle.std.specs.Prelude.{◌≡◌};
ghost use Rattle.linux_rules.specs.declared.refusal.LinuxFault.TheVariants as linux_fault;

use allocation::OutOfMemory;
use thiserror::Error;

/// A rule of Linux that `load` doesn't have, in the order of the checks of a line.
#[derive(Clone, Copy, Debug, PartialEq, Eq, Error)]
#[error("{}", self.name())]
pub enum LinuxKind {
    /// A line ends beyond 2^54 - 1 sectors.
    LinuxSize = 51,
    /// A verity line and a line of another kind are in one table.
    VerityBesideOthers = 52,
    /// The data or hash blocks of a verity line are smaller than a logical block of their device.
    SmallBlock = 53,
    /// The tree of a verity line begins past the end of the hash device.
    BeginBeyondDevice = 54,
    /// A line's length, a stripe's share or an offset isn't whole logical blocks.
    PartBlock = 55,
    /// A line begins inside a logical block of its device and goes on after it, and what it has of the block isn't whole
    /// blocks of the devices beneath the line.
    DividedBlock = 56,
    /// A crypt line begins inside a unit: Linux numbers the units otherwise.
    UnitStart = 57,
    /// The chunk of a striped or unstriped line isn't whole logical blocks of a device beneath: Linux can't read what is divided.
    DividedChunk = 58,
    /// The device's size isn't whole logical blocks. Checked after the lines.
    PartSize = 59,
}

impl LinuxKind {
    ghost use Rattle.std.specs.Prelude.{◌≡◌};
    ghost use Rattle.linux_rules.specs.Kinds.{linux_number, linux_name};

    /// The number that is printed, 51 to 59.
    pub fn number(self) -> u8
        ensures { result ≡ linux_number self }
    {
        self as u8
    }

    /// The name that is printed: the variant's.
    pub fn name(self) -> &'static str
        ensures { result.now ≡ linux_name self }
    {
        match self {
            LinuxKind::LinuxSize => "LinuxSize",
            LinuxKind::VerityBesideOthers => "VerityBesideOthers",
            LinuxKind::SmallBlock => "SmallBlock",
            LinuxKind::BeginBeyondDevice => "BeginBeyondDevice",
            LinuxKind::PartBlock => "PartBlock",
            LinuxKind::DividedBlock => "DividedBlock",
            LinuxKind::UnitStart => "UnitStart",
            LinuxKind::DividedChunk => "DividedChunk",
            LinuxKind::PartSize => "PartSize",
        }
    }
}

/// The first rule that applies. Devices and lines count from 1; the line is 0 if the rule is about a whole device.
#[derive(Clone, Copy, Debug, PartialEq, Eq)]
pub struct LinuxRefusal {
    pub kind: LinuxKind,
    pub device: u32,
    pub line: u32,
}

/// Why a configuration isn't known to be the same in Linux.
#[derive(Clone, Copy, Debug, PartialEq, Eq, Error)]
pub enum LinuxFault {
    /// A rule of Linux applies.
    #[error("Linux refuses the stack or reads other bytes")]
    Refused(LinuxRefusal),
    /// An allocation was refused.
    #[error("NoMemory")]
    NoMemory,
}

impl From<OutOfMemory> for LinuxFault {
    ghost from_gives = { λ _ fault. fault ≡ linux_fault.NoMemory };

    fn from(_error: OutOfMemory) -> LinuxFault {
        LinuxFault::NoMemory
    }
}
