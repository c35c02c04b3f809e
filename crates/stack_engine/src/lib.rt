//! Reads and writes through stacked devices, piece by piece.
#![tactic(auto)]

mod answer;
mod backing;
mod buffer;
mod counters;
mod kept_data;
pub mod laws;
mod leaf;
mod losses;
mod path;
mod path_end;
mod read;
mod rows;
mod space;
mod spare;
mod stack;
mod sync;
mod write;

pub use answer::Answer;
pub use stack::Stack;
pub use stack_meaning::{Fault, Found, IoFault};
