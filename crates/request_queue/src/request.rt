//! Requests to a stack.

/// A request for sectors of a mapped device, which is named without `/dev/mapper/`.
#[derive(Debug, Drop)]
pub enum Request {
    /// `count` sectors from `first` on are read.
    Read {
        device: Vec<u8>,
        first: u64,
        count: u64,
    },
    /// Whole sectors are written, from `first` on.
    Write {
        device: Vec<u8>,
        first: u64,
        bytes: Vec<u8>,
    },
}
