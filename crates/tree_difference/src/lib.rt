//! Compares two hash trees from their roots down.
#![tactic(auto)]

mod difference;
mod fault;
pub mod laws;
mod reading;
mod root_block;
mod trees;
mod walk;

pub use difference::{Totals, compare_trees};
pub use fault::{DifferenceFault, Unlike, Which};
pub use root_block::check_root_block;
pub use trees::{Roots, TreePair, check_alike};
