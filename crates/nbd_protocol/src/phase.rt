//! The phases of a session.

/// What client and service have agreed on so far in the handshake.
#[derive(Clone, Copy, Debug, PartialEq, Eq)]
pub struct Terms {
    /// No zeros follow the reply to EXPORT_NAME.
    pub no_zeroes: bool,
    /// The replies to READ are structured.
    pub structured: bool,
    /// The index of the export for which block status is selected.
    pub status: Option<usize>,
    /// How many more options the client may send.
    pub left: u32,
}

/// The most options that a client may send in one handshake.
pub const MOST_OPTIONS: u32 = 1024;

/// What client and service have agreed on for the transmission phase.
#[derive(Clone, Copy, Debug, PartialEq, Eq)]
pub struct Agreement {
    /// The index of the export.
    pub place: usize,
    /// The replies to READ are structured.
    pub structured: bool,
    /// Block status is selected.
    pub status: bool,
}

/// What the client may send next.
#[derive(Clone, Copy, Debug, PartialEq, Eq)]
pub enum Phase {
    /// The client flags.
    Greeted,
    /// An option.
    Haggling { terms: Terms },
    /// A request.
    Serving { agreed: Agreement },
    /// Nothing: the session has ended.
    Over,
}
