//! The semantics of a stack of mapped devices: the contents of each sector, and the effect of each write.
#![tactic(auto)]

mod fault;
mod found;
pub mod laws;
mod units;

pub use fault::{Fault, IoFault};
pub use found::Found;
pub use units::{CryptUnits, UnitSize};
