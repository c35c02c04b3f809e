//! Hash trees as dm-verity stores them: digests of blocks, areas, chains of blocks up to the root, and where two chains differ.
#![tactic(auto)]

mod block_digests;
mod building;
mod chain;
mod difference;
pub mod laws;
mod packing;

pub use block_digests::digest_blocks;
pub use building::{LevelBuilder, Placed};
pub use chain::Chain;
pub use difference::{Place, collide};
pub use packing::area;
