//! Why a session ends early.
ghost use Rattle.std.specs.Prelude.{◌≡◌};
ghost use Rattle.stack_session.specs.declared.fault.SessionFault.TheVariants as session_fault;

use program_io::WriteFault;
use thiserror::Error;

/// Why a session ended early.
#[derive(Clone, Copy, Debug, PartialEq, Eq, Error)]
pub enum SessionFault {
    /// The reader failed, or was called 2^24 + 1 times before its end.
    #[error("the reader failed")]
    ReadFault = 1,
    /// The writer failed.
    #[error("the writer failed")]
    WriteFault = 2,
    /// The input has more than 16 MiB.
    #[error("the input is too long")]
    TooLong = 3,
    /// An allocation to keep a part of a line was refused.
    #[error("out of memory")]
    NoMemory = 4,
}

impl From<WriteFault> for SessionFault {
    ghost from_gives = { λ _ fault. fault ≡ session_fault.WriteFault };

    fn from(_fault: WriteFault) -> SessionFault {
        SessionFault::WriteFault
    }
}
