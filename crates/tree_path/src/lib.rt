//! The path from the root of a hash tree down to a data block: one hash block of each level in memory, read from a
//! device and verified.
#![tactic(auto)]

mod path;
mod reading;
mod spans;
mod unused;

pub use path::TreePath;
pub use spans::{span, top_at};
