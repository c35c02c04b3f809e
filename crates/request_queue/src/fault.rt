//! Why calls of a queue are refused, and how a run fails.
ghost use Rattle.std.specs.Prelude.{◌≡◌};
ghost use Rattle.request_queue.specs.SubmitFaults.{submit_name, submit_number};
ghost use Rattle.request_queue.specs.declared.fault.BytesFault.TheVariants as bytes_fault;

use crate::request::Request;
use stack_engine::IoFault;
use thiserror::Error;

/// Why a request isn't begun, in the order of the checks; memory may run out at any of them.
#[derive(Clone, Copy, Debug, PartialEq, Eq, Error)]
#[error("{}", self.name())]
pub enum SubmitFault {
    /// No mapped device has that name.
    NoSuchDevice = 1,
    /// The sectors end past the device.
    OutOfRange = 2,
    /// There are no sectors, or more than 2,048, or bytes that aren't whole sectors.
    Length = 3,
    /// A write to a device that may not be written.
    ReadOnly = 4,
    /// 64 requests are in flight, or 2^64 - 1 tickets were given.
    Full = 5,
    /// Memory ran out.
    NoMemory = 6,
}

impl SubmitFault {
    /// Returns the number that is printed.
    pub fn number(self) -> u8
        ensures { result ≡ submit_number self }
    {
        self as u8
    }

    /// Returns the name that is printed: the variant's.
    pub fn name(self) -> &'static str
        ensures { result.now ≡ submit_name self }
    {
        match self {
            SubmitFault::NoSuchDevice => "NoSuchDevice",
            SubmitFault::OutOfRange => "OutOfRange",
            SubmitFault::Length => "Length",
            SubmitFault::ReadOnly => "ReadOnly",
            SubmitFault::Full => "Full",
            SubmitFault::NoMemory => "NoMemory",
        }
    }
}

/// No request in flight has that ticket.
#[derive(Clone, Copy, Debug, PartialEq, Eq, Error)]
#[error("NoSuchTicket")]
pub struct NoSuchTicket;

/// Why a call fails that needs a queue with no request in flight.
#[derive(Clone, Copy, Debug, PartialEq, Eq)]
pub enum BusyOr<F> {
    /// A request is in flight.
    Busy,
    /// The call itself is refused.
    Fault(F),
}

/// How a run ends if it gives no reply.
#[derive(Debug, Drop)]
pub enum RunFault {
    /// The request wasn't begun, and is returned.
    Submit(SubmitFault, Request),
    /// The request ended by a fault.
    Io(IoFault),
}

/// The piece at which a read or a write at once ended, and its fault.
#[derive(Clone, Copy, Debug, PartialEq, Eq)]
pub struct PieceFault {
    /// The first sector of the piece.
    pub first: u64,
    /// How many sectors it has.
    pub count: u64,
    pub fault: IoFault,
}

/// Why sectors aren't read or written at once.
#[derive(Clone, Copy, Debug, PartialEq, Eq)]
pub enum BytesFault {
    /// The sectors can't be requested: `NoSuchDevice`, `OutOfRange`, `Length` if the bytes aren't whole sectors, or for a
    /// write `ReadOnly`.
    Refused(SubmitFault),
    /// The read or write ended with a piece that failed.
    Failed(PieceFault),
}

impl From<SubmitFault> for BytesFault {
    ghost from_gives = { λ fault given. given ≡ bytes_fault.Refused fault };

    fn from(fault: SubmitFault) -> Self {
        BytesFault::Refused(fault)
    }
}

impl From<PieceFault> for BytesFault {
    ghost from_gives = { λ piece given. given ≡ bytes_fault.Failed piece };

    fn from(piece: PieceFault) -> Self {
        BytesFault::Failed(piece)
    }
}
