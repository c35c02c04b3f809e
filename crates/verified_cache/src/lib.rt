//! A bounded cache of verified hash blocks, each stored under its key with its digest. A full cache drops the least
//! recently used block.
#![tactic(auto)]

mod cache;
mod key;
mod keys;
pub mod laws;
mod slots;

pub use cache::BlockCache;
pub use key::Key;
pub use keys::Keys;
