//! Requests in flight over a stack, served piece by piece.
#![tactic(auto)]

mod admit;
mod at_once;
mod fault;
mod flight;
mod queue;
mod range;
mod reply;
mod request;
mod work;

pub use fault::{BusyOr, BytesFault, NoSuchTicket, PieceFault, RunFault, SubmitFault};
pub use queue::Queue;
pub use range::SectorRange;
pub use reply::{Progress, Reply, Ticket};
pub use request::Request;
