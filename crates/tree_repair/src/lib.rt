//! Repairs damaged images from the root down. Each corrupt block is sought in copies. A hash block that no copy has is
//! reconstructed from the blocks below it. A block that is still lost is restored by parity. Bytes with the block's digest are
//! written.
#![tactic(auto)]

mod bad;
mod correcting;
mod covered;
mod fault;
mod fetching;
mod good_row;
mod image;
mod keeping;
mod lacking;
mod large_reads;
pub mod laws;
mod levels;
mod listed;
mod listing;
mod lists;
mod losses;
mod mending;
mod moving;
mod outcome;
mod parity;
mod passes;
mod place;
mod putting;
mod remaking;
mod repair;
mod saying;
mod seeds;
mod seeking;
mod verified_path;
mod visiting;

pub use fault::RepairFault;
pub use image::DamagedImage;
pub use listed::ListedBlocks;
pub use listing::list_blocks;
pub use lists::BlockLists;
pub use mending::Mended;
pub use moving::move_blocks;
pub use outcome::Outcome;
pub use passes::repair_with_parity;
pub use repair::{Plan, repair_image};
