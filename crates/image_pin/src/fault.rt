//! Why a text isn't a pin.
ghost use Rattle.std.specs.Prelude.{◌≡◌};
ghost use Rattle.image_pin.specs.Faults.{fault_name, fault_number};

use crate::name::PinName;
use thiserror::Error;

/// Why a text isn't a pin: the first fault in reading order.
#[derive(Clone, Copy, Debug, PartialEq, Eq, Error)]
pub enum PinFault {
    /// The first line isn't `dmstack-pin 1`.
    #[error("PinHeader")]
    Header,
    /// A line after it isn't a name and a value.
    #[error("PinLine")]
    Line,
    /// A line has an unknown name.
    #[error("PinUnknown")]
    Unknown,
    /// Two lines have this name.
    #[error("PinRepeated")]
    Repeated(PinName),
    /// No line has this name.
    #[error("PinMissing")]
    Missing(PinName),
    /// The value of this name is not a root hash, salt or number.
    #[error("PinValue")]
    Value(PinName),
    /// The text is longer than `MOST_BYTES`.
    #[error("PinTooLong")]
    TooLong,
}

impl PinFault {
    /// Returns the number in printed output.
    pub fn number(self) -> u8
        ensures { result ≡ fault_number self }
    {
        match self {
            PinFault::Header => 36,
            PinFault::Line => 37,
            PinFault::Unknown => 38,
            PinFault::Repeated(_) => 39,
            PinFault::Missing(_) => 40,
            PinFault::Value(_) => 41,
            PinFault::TooLong => 42,
        }
    }

    /// Returns the name in printed output.
    pub fn name(self) -> &'static str
        ensures { result.now ≡ fault_name self }
    {
        match self {
            PinFault::Header => "PinHeader",
            PinFault::Line => "PinLine",
            PinFault::Unknown => "PinUnknown",
            PinFault::Repeated(_) => "PinRepeated",
            PinFault::Missing(_) => "PinMissing",
            PinFault::Value(_) => "PinValue",
            PinFault::TooLong => "PinTooLong",
        }
    }
}
