//! The command `assemble`: a disk with a verity image.
#![tactic(auto)]

mod assemble;
mod ends;
mod filling;
mod identifiers;
mod kinds;
pub mod laws;
mod parity;
mod plan;
mod watching;

pub use assemble::invoke_assemble;
