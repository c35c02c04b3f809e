//! Why a request isn't done.
ghost use Rattle.std.specs.Prelude.{◌≡◌, ◌<◌, ◌≤◌, length};
ghost use Rattle.stack_rules.specs.Names.{mapped, size};
ghost use Rattle.nbd_server.specs.Failures.{failure_by, fault_of, fault_text, no_memory, plain_text, put_failure, read_failure, refusal_text, reported_error, told_block, write_failure};

use crate::data_block::DataBlock;
use crate::known_faults::SectorFault;
use crate::lost::{LostPiece, lost_block};
use allocation::OutOfMemory;
use block_device::BlockDev;
use nbd_protocol::RequestError;
use request_queue::PieceFault;
use stack_config::{Config, DevId};
use stack_engine::Stack;
use stack_meaning::{Fault, IoFault};

/// Why a request isn't done: by an error of its own, by a fault of the stack, or by a failed sync.
#[derive(Clone, Copy, Debug, PartialEq, Eq)]
pub(crate) enum Failure {
    /// The request isn't allowed, or an allocation failed.
    Refused(RequestError),
    /// The stack refused the access to these sectors, or a device failed.
    Faulty(LostPiece),
    /// A device failed to write these sectors because it has no space left.
    Full(LostPiece),
    /// A device failed to sync what was written.
    Unsynced(IoFault),
}

// What is said of a request that isn't allowed, or for which memory lacks.
fn refusal_text(error: RequestError) -> &'static str
    ensures value { result.now ≡ refusal_text error }
    ensures short { length result.now ≤ 64 }
{
    match error {
        RequestError::NotPermitted => "the export is read-only",
        RequestError::InputOutput => "input or output failed",
        RequestError::NoMemory => "out of memory",
        RequestError::Invalid => "the request is invalid",
        RequestError::NoSpace => "the range ends past the export",
        RequestError::NotSupported => "zeros take as long to write as other bytes",
    }
}

// What is said of a fault of the stack.
fn fault_text(fault: IoFault) -> &'static str
    ensures value { result.now ≡ fault_text fault }
    ensures short { length result.now ≤ 64 }
{
    match fault {
        IoFault::Stack(Fault::ErrorTarget) => "the sector is on an error target",
        IoFault::Stack(Fault::Mismatch) => "a block fails verification",
        IoFault::Device(_) => "a backing device failed",
        IoFault::NoMemory => "out of memory",
    }
}

impl Failure {
    /// Returns the error that the reply reports.
    pub(crate) fn reported(self) -> RequestError
        ensures { result ≡ reported_error self }
    {
        match self {
            Failure::Refused(error) => error,
            Failure::Faulty(_) => RequestError::InputOutput,
            Failure::Full(_) => RequestError::NoSpace,
            Failure::Unsynced(_) => RequestError::InputOutput,
        }
    }

    /// Returns what the chunk of an error says to humans, unless it names a data block.
    pub(crate) fn text(self) -> &'static str
        ensures value { result.now ≡ plain_text self }
        ensures short { length result.now ≤ 64 }
    {
        match self {
            Failure::Refused(error) => refusal_text(error),
            Failure::Faulty(piece) => fault_text(piece.fault),
            Failure::Full(_) => "a backing device has no space left",
            Failure::Unsynced(fault) => fault_text(fault),
        }
    }

    /// Returns the data block that fails verification, if it is known.
    pub(crate) fn block(self) -> Option<DataBlock>
        ensures { result ≡ told_block self }
    {
        match self {
            Failure::Faulty(piece) => piece.block,
            Failure::Refused(_) | Failure::Full(_) | Failure::Unsynced(_) => None,
        }
    }

    // The failure of an access that ended with these sectors.
    fn by(piece: LostPiece) -> Failure
        ensures { result ≡ failure_by piece.fault piece }
    {
        match piece.fault {
            IoFault::Stack(_) => Failure::Faulty(piece),
            IoFault::Device(_) => Failure::Faulty(piece),
            IoFault::NoMemory => Failure::Refused(RequestError::NoMemory),
        }
    }

    /// Returns the failure of a read of a mapped device.
    pub(crate) fn of_read(config: &Config, device: DevId, piece: PieceFault) -> Failure
        requires { piece.first < size config.now (mapped device.0) }
        ensures { result ≡ read_failure config.now device.0 piece }
    {
        let block = lost_block(config, device, piece);
        Failure::by(LostPiece::of(piece, block))
    }

    /// Returns the failure of a write.
    pub(crate) fn of_put(piece: PieceFault) -> Failure
        ensures { result ≡ put_failure piece }
    {
        Failure::by(LostPiece::of(piece, None))
    }

    /// Returns the failure of a write: that no space is left if the device that failed lacked it.
    pub(crate) fn of_write<D: BlockDev>(self, stack: &Stack<D>) -> Failure
        ensures { result ≡ write_failure stack.now.leaves self }
    {
        match self {
            Failure::Refused(error) => Failure::Refused(error),
            Failure::Faulty(piece) => {
                if stack.lacks_space(piece.fault) {
                    Failure::Full(piece)
                } else {
                    Failure::Faulty(piece)
                }
            }
            Failure::Full(piece) => Failure::Full(piece),
            Failure::Unsynced(fault) => Failure::Unsynced(fault),
        }
    }

    /// Returns the fault, if there is one, with the first sector of its piece. The fault of a sync has no sector.
    pub(crate) fn fault(self) -> Option<SectorFault>
        ensures { result ≡ fault_of self }
    {
        match self {
            Failure::Refused(_) => None,
            Failure::Faulty(piece) => Some(SectorFault {
                sector: Some(piece.first),
                block: piece.block,
                fault: piece.fault,
                full: false,
            }),
            Failure::Full(piece) => Some(SectorFault {
                sector: Some(piece.first),
                block: piece.block,
                fault: piece.fault,
                full: true,
            }),
            Failure::Unsynced(fault) => Some(SectorFault {
                sector: None,
                block: None,
                fault,
                full: false,
            }),
        }
    }
}

impl From<OutOfMemory> for Failure {
    ghost from_gives = { λ _ given. given ≡ no_memory };

    fn from(_error: OutOfMemory) -> Failure {
        Failure::Refused(RequestError::NoMemory)
    }
}
