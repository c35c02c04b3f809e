//! Pins of verity images: texts that store a root hash together with the shape of its tree.
#![tactic(auto)]

mod fault;
mod fields;
mod finding;
pub mod laws;
mod mismatch;
mod name;
mod pin;
mod pinned;
mod print;
mod read;
mod trusted;

pub use fault::PinFault;
pub use finding::{NoTree, find_tree, is_aligned};
pub use mismatch::{Mismatch, check_superblock};
pub use name::PinName;
pub use pin::Pin;
pub use pinned::{PinnedFault, mismatch_of, read_pinned};
pub use print::print_pin;
pub use read::{MOST_BYTES, parse_pin};
pub use trusted::TrustedRoot;
