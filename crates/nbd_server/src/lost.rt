//! The sectors at which a read or a write ended.
ghost use Rattle.std.specs.Prelude.{◌≡◌, ◌<◌};
ghost use Rattle.stack_rules.specs.Names.{mapped, size};
ghost use Rattle.nbd_server.specs.Failures.{lost, lost_block};

use crate::data_block::{DataBlock, sector_block};
use request_queue::PieceFault;
use stack_config::{Config, DevId};
use stack_meaning::{Fault, IoFault};

/// The sectors of the piece at which a read or a write ended, and its fault.
#[derive(Clone, Copy, Debug, PartialEq, Eq)]
pub(crate) struct LostPiece {
    pub(crate) first: u64,
    pub(crate) count: u64,
    pub(crate) fault: IoFault,
    /// The data block of a sector that was read alone, if it fails verification.
    pub(crate) block: Option<DataBlock>,
}

impl LostPiece {
    /// Returns the piece, with that block.
    pub(crate) fn of(piece: PieceFault, block: Option<DataBlock>) -> LostPiece
        ensures { result ≡ lost block piece }
    {
        LostPiece {
            first: piece.first,
            count: piece.count,
            fault: piece.fault,
            block,
        }
    }
}

/// Returns the data block of a sector that was read alone, if it fails verification.
pub(crate) fn lost_block(config: &Config, device: DevId, piece: PieceFault) -> Option<DataBlock>
    requires { piece.first < size config.now (mapped device.0) }
    ensures { result ≡ lost_block config.now device.0 piece }
{
    if piece.count != 1 {
        return None;
    }
    match piece.fault {
        IoFault::Stack(Fault::Mismatch) => sector_block(config, device, piece.first),
        IoFault::Stack(Fault::ErrorTarget) => None,
        IoFault::Device(_) => None,
        IoFault::NoMemory => None,
    }
}
