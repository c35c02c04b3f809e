//! The result of a request.
use stack_engine::{Answer, IoFault};

/// The number of a request, from 1. None is given twice.
#[derive(Clone, Copy, Debug, PartialEq, Eq)]
pub struct Ticket(pub u64);

/// The result of a request that succeeded.
#[derive(Drop)]
pub enum Reply {
    /// All bytes and chains of its pieces, in order.
    Sectors(Answer),
    /// All bytes were written.
    Written,
}

/// The state of a request after one of its pieces.
#[derive(Drop)]
pub enum Progress {
    /// Sectors are left.
    More,
    /// The request is over.
    Done(Result<Reply, IoFault>),
}
