//! Where the pieces of a transfer end, so that no unit and no data block is split between two of them.
#![tactic(auto)]

mod ends;
pub mod laws;
mod length;

pub use ends::ends_units;
pub use length::aligned_len;
