//! Readers and writers that count calls and remember failures, and the line of a JSON value.
#![tactic(auto)]

mod counted;
mod fault;
mod json_line;

pub use counted::Counted;
pub use fault::WriteFault;
pub use json_line::line_of;
