//! What the lines of mapped devices make of runs of sectors, before a device is accessed.
#![tactic(auto)]

mod cache;
mod cuts;
mod encrypts;
mod keys_on_leaf;
mod last_block;
mod leaf_set;
mod leaf_sets;
mod read_runs;
mod serve;
mod source;
pub mod tree;
pub mod units;
mod unstriped;

pub use cache::Cache;
pub use cuts::{Steps, lower_cuts};
pub use encrypts::device_encrypts;
pub use read_runs::run_to_read;
pub use serve::run_at;
pub use source::{CryptPart, Run, Source, VerityPart};
