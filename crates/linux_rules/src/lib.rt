//! Whether Linux's device mapper loads a configuration too, and reads the same.
#![tactic(auto)]

mod block;
mod lines;
mod refusal;
mod rules;
mod signatures;
mod target;

pub use refusal::{LinuxFault, LinuxKind, LinuxRefusal};
pub use rules::check_linux;
pub use signatures::has_signature;
