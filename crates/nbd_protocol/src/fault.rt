//! Why the session of a client ends early.
ghost use Rattle.std.specs.Prelude.{◌≡◌};
ghost use Rattle.nbd_protocol.specs.declared.fault.ServiceFault.TheVariants as service_fault;

use program_io::WriteFault;
use thiserror::Error;

/// Why the session of a client ended early.
#[derive(Clone, Copy, Debug, PartialEq, Eq, Error)]
pub enum ServiceFault {
    /// The client disconnected in the middle of a message.
    #[error("the client went away inside a message")]
    Lost = 1,
    /// A message doesn't begin with its magic number.
    #[error("a message doesn't begin with its magic number")]
    Magic = 2,
    /// The client set flags that the service doesn't offer.
    #[error("the client asked for flags that aren't offered")]
    Flags = 3,
    /// The client requested an export that doesn't exist.
    #[error("the client asked for an export that isn't there")]
    NoSuchExport = 4,
    /// The client sent another option after 1,024 of them.
    #[error("the client sent too many options")]
    TooManyOptions = 5,
    /// The reader failed, or was called 2^64 - 1 times.
    #[error("the reader failed")]
    ReadFault = 6,
    /// The writer failed.
    #[error("the writer failed")]
    WriteFault = 7,
}

impl From<WriteFault> for ServiceFault {
    ghost from_gives = { λ _ fault. fault ≡ service_fault.WriteFault };

    fn from(_fault: WriteFault) -> ServiceFault {
        ServiceFault::WriteFault
    }
}
