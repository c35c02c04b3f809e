//! Why a request fails.
ghost use Rattle.std.specs.Prelude.{◌≡◌};
ghost use Rattle.nbd_protocol.specs.Headers.{error_number};
ghost use Rattle.nbd_protocol.specs.Headers.{error_of};
ghost use Rattle.nbd_protocol.specs.declared.request_error.RequestError.TheVariants as request_error;

use allocation::OutOfMemory;
use stack_meaning::IoFault;
use thiserror::Error;

/// Why a request fails. The values are the error numbers of the protocol.
#[derive(Clone, Copy, Debug, PartialEq, Eq, Error)]
pub enum RequestError {
    /// A write to a read-only export.
    #[error("not permitted")]
    NotPermitted = 1,
    /// The stack refused the access, or a device failed.
    #[error("input or output failed")]
    InputOutput = 5,
    /// An allocation failed, or the queue is full.
    #[error("out of memory")]
    NoMemory = 12,
    /// The request is malformed or too long, or reads past the end.
    #[error("invalid")]
    Invalid = 22,
    /// A write past the end of the export, or one for which a backing device has no space left.
    #[error("no space")]
    NoSpace = 28,
    /// Zeros that must be written faster than other bytes.
    #[error("not supported")]
    NotSupported = 95,
}

impl RequestError {
    /// Returns the error's number in a reply.
    pub fn number(self) -> u32
        ensures { result ≡ error_number self }
    {
        match self {
            RequestError::NotPermitted => 1,
            RequestError::InputOutput => 5,
            RequestError::NoMemory => 12,
            RequestError::Invalid => 22,
            RequestError::NoSpace => 28,
            RequestError::NotSupported => 95,
        }
    }
}

impl From<IoFault> for RequestError {
    ghost from_gives = { λ fault error. error ≡ error_of fault };

    fn from(fault: IoFault) -> RequestError {
        match fault {
            IoFault::NoMemory => RequestError::NoMemory,
            _ => RequestError::InputOutput,
        }
    }
}

impl From<OutOfMemory> for RequestError {
    ghost from_gives = { λ _ error. error ≡ request_error.NoMemory };

    fn from(_error: OutOfMemory) -> RequestError {
        RequestError::NoMemory
    }
}
