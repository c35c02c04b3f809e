//! Printing the fault that ends an access to a stack, refusals, and files that can't be opened.
#![tactic(auto)]

pub mod laws;
mod open;
mod path;
mod say;

pub use open::say_unopened;
pub use path::say_path;
pub use say::{say_io_fault, say_io_words, say_no_memory, say_refused, say_usage};
