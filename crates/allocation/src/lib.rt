//! Allocations, and the evidence that one failed.
#![tactic(auto)]

mod maps;
mod out_of_memory;
mod seal;
mod texts;
mod vectors;

pub use maps::insert;
pub use out_of_memory::OutOfMemory;
pub use texts::{joined, number, push_char, push_text};
pub use vectors::{append, copied, filled, push, reserve, resize, with_capacity, zeros};
