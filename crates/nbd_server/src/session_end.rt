//! How a session ends without a fault.

/// Who ended a session between two messages.
#[derive(Clone, Copy, Debug, PartialEq, Eq)]
pub enum SessionEnd {
    /// The client ended it, by the request DISC or the option ABORT.
    Ended,
    /// The input ended: the client went away.
    Gone,
}
