//! Why a text isn't the map of a device.
ghost use Rattle.std.specs.Prelude.{◌≡◌};
ghost use Rattle.rescue_map.specs.declared.fault.MapFault.TheVariants as map_fault;

use allocation::OutOfMemory;
use thiserror::Error;

/// Why a text isn't the map of a device: the first fault in reading order.
#[derive(Clone, Copy, Debug, PartialEq, Eq, Error)]
pub enum MapFault {
    /// An allocation failed.
    #[error("NoMemory")]
    NoMemory,
    /// The first line that is neither blank nor a comment isn't a status line, or there is none.
    #[error("Status")]
    Status,
    /// A line after the status line isn't one of a block.
    #[error("Block")]
    Block,
    /// A block is empty.
    #[error("PartSector")]
    PartSector,
    /// A block begins after the end of the previous one.
    #[error("Gap")]
    Gap,
    /// A block begins before the end of the previous one.
    #[error("Overlap")]
    Overlap,
    /// The blocks don't end at the end of the device, or in a part of a sector after it.
    #[error("Size")]
    Size,
}

impl From<OutOfMemory> for MapFault {
    ghost from_gives = { λ _ given. given ≡ map_fault.NoMemory };

    fn from(_error: OutOfMemory) -> MapFault {
        MapFault::NoMemory
    }
}
