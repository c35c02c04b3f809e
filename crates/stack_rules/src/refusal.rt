//! Why leaves, a load or a removal are refused.
ghost use Rattle.std.specs.Prelude.{◌≡◌};
ghost use Rattle.stack_rules.specs.declared.refusal.LoadFault.TheVariants as load_fault;

use allocation::OutOfMemory;
use thiserror::Error;

/// Why leaves are refused, in the order of the checks.
#[derive(Clone, Copy, Debug, PartialEq, Eq, Error)]
#[error("{}", self.name())]
pub enum ConfigFault {
    /// Two leaves have the same name.
    DuplicateLeaf = 1,
    /// There are more than 64 leaves.
    TooMany = 2,
    /// A name isn't a leaf name.
    BadName = 3,
    /// A leaf has more than 2^54 sectors.
    TooLarge = 4,
    /// An allocation failed. No function returns this fault at present.
    NoMemory = 5,
}

impl ConfigFault {
    ghost use Rattle.std.specs.Prelude.{◌≡◌};
    ghost use Rattle.stack_rules.specs.FaultKinds.{config_number, config_name};

    /// Returns the number that is printed, 1 to 5.
    pub fn number(self) -> u8
        ensures { result ≡ config_number self }
    {
        self as u8
    }

    /// Returns the name that is printed: that of the variant.
    pub fn name(self) -> &'static str
        ensures { result.now ≡ config_name self }
    {
        match self {
            ConfigFault::DuplicateLeaf => "DuplicateLeaf",
            ConfigFault::TooMany => "TooMany",
            ConfigFault::BadName => "BadName",
            ConfigFault::TooLarge => "TooLarge",
            ConfigFault::NoMemory => "NoMemory",
        }
    }
}

/// The rule that refuses a load, in the order of the checks except for the last three.
#[derive(Clone, Copy, Debug, PartialEq, Eq, Error)]
#[error("{}", self.name())]
pub enum LoadKind {
    /// Two entries have the same name.
    DuplicateName = 1,
    /// There would be more than 64 devices, or a device has more than 256 lines.
    TooMany = 2,
    /// A line names neither a leaf nor a device.
    NoSuchDevice = 3,
    /// A chain of lines leads from the device to itself. The device is the first that is on a cycle.
    StandsOnItself = 4,
    /// A line has length 0.
    ZeroLength = 5,
    /// A line doesn't start at the end of the lines before it.
    Gap = 6,
    /// A line ends after 2^54 sectors.
    TooLarge = 7,
    /// The length of a `striped` line isn't a multiple of stripes times chunk size, or that of an `unstriped` line
    /// isn't a multiple of the chunk size.
    StripesDontDivide = 8,
    /// A mapped range ends after the named device: the range of a line, the share of a stripe, or all data blocks of
    /// a `verity` line. If the line has parity, also the covered hash blocks, and the parity.
    BeyondDevice = 9,
    /// A `verity` line is longer than its data blocks.
    LineBeyondTree = 10,
    /// The tree of a `verity` line ends after the hash device.
    TreeBeyondDevice = 11,
    /// A `verity` line is in a writable device.
    NeedsReadOnly = 12,
    /// A line of a writable device names a read-only leaf or device.
    LowerReadOnly = 13,
    /// The depth of a device is above 8. The depth of a leaf is 0, that of a device one more than the depth of the
    /// deepest device that it names.
    TooDeep = 14,
    /// Reading a sector could read more than 2^32 leaf sectors.
    CostTooLarge = 15,
    /// The length of a `crypt` line isn't a multiple of its encryption unit. Checked after `StripesDontDivide`.
    UnitDoesntDivide = 16,
    /// The `iv_offset` of a `crypt` line isn't a multiple of the sectors of its encryption unit. Checked after
    /// `UnitDoesntDivide`.
    IvOffset = 17,
    /// The parity of a `verity` line doesn't cover all data and hash blocks, or data and hash blocks differ in size. Checked
    /// after `IvOffset`.
    ParityDoesntCover = 61,
}

impl LoadKind {
    ghost use Rattle.std.specs.Prelude.{◌≡◌};
    ghost use Rattle.stack_rules.specs.FaultKinds.{load_number, load_name};

    /// Returns the number that is printed: 1 to 17, or 61.
    pub fn number(self) -> u8
        ensures { result ≡ load_number self }
    {
        self as u8
    }

    /// Returns the name that is printed: that of the variant.
    pub fn name(self) -> &'static str
        ensures { result.now ≡ load_name self }
    {
        match self {
            LoadKind::DuplicateName => "DuplicateName",
            LoadKind::TooMany => "TooMany",
            LoadKind::NoSuchDevice => "NoSuchDevice",
            LoadKind::StandsOnItself => "StandsOnItself",
            LoadKind::ZeroLength => "ZeroLength",
            LoadKind::Gap => "Gap",
            LoadKind::TooLarge => "TooLarge",
            LoadKind::StripesDontDivide => "StripesDontDivide",
            LoadKind::BeyondDevice => "BeyondDevice",
            LoadKind::LineBeyondTree => "LineBeyondTree",
            LoadKind::TreeBeyondDevice => "TreeBeyondDevice",
            LoadKind::NeedsReadOnly => "NeedsReadOnly",
            LoadKind::LowerReadOnly => "LowerReadOnly",
            LoadKind::TooDeep => "TooDeep",
            LoadKind::CostTooLarge => "CostTooLarge",
            LoadKind::UnitDoesntDivide => "UnitDoesntDivide",
            LoadKind::IvOffset => "IvOffset",
            LoadKind::ParityDoesntCover => "ParityDoesntCover",
        }
    }
}

/// The first refusal of a load. Devices and lines are numbered from 1.
///
/// For `DuplicateName` the device is the number of the entry in the text, which counts skipped entries. For `TooMany`
/// device and line are 0. For a rule about a whole device the line is 0.
#[derive(Clone, Copy, Debug, PartialEq, Eq)]
pub struct Refusal {
    pub kind: LoadKind,
    pub device: u32,
    pub line: u32,
}

/// Why a text isn't loaded.
#[derive(Clone, Copy, Debug, PartialEq, Eq, Error)]
pub enum LoadFault {
    /// A rule refuses the resulting configuration.
    #[error("a rule refuses the load")]
    Refused(Refusal),
    /// An allocation failed.
    #[error("NoMemory")]
    NoMemory,
}

impl From<OutOfMemory> for LoadFault {
    ghost from_gives = { λ _ fault. fault ≡ load_fault.NoMemory };

    fn from(_error: OutOfMemory) -> LoadFault {
        LoadFault::NoMemory
    }
}

/// Why a device isn't removed, in the order of the checks.
#[derive(Clone, Copy, Debug, PartialEq, Eq, Error)]
#[error("{}", self.name())]
pub enum RemoveFault {
    /// There is no mapped device with this name.
    NoSuchDevice = 1,
    /// Another device names it.
    InUse = 2,
}

impl RemoveFault {
    ghost use Rattle.std.specs.Prelude.{◌≡◌};
    ghost use Rattle.stack_rules.specs.FaultKinds.{removal_number, removal_name};

    /// Returns the number that is printed, 1 or 2.
    pub fn number(self) -> u8
        ensures { result ≡ removal_number self }
    {
        self as u8
    }

    /// Returns the name that is printed: that of the variant.
    pub fn name(self) -> &'static str
        ensures { result.now ≡ removal_name self }
    {
        match self {
            RemoveFault::NoSuchDevice => "NoSuchDevice",
            RemoveFault::InUse => "InUse",
        }
    }
}
