//! Configurations of stacked devices, and the rules that refuse them.
#![tactic(auto)]

mod leaf;
mod lower;
mod lowers;
mod mapped;
mod names;
mod parity;
mod planned;
mod refusal;
mod tree;
mod units;
mod unstriped;

pub use leaf::Leaf;
pub use lower::{DevId, Lower};
pub use lowers::{DeviceLowers, LineLowers};
pub use mapped::{Mapped, place_of};
pub use names::name_count;
pub use parity::{covered_sectors, is_unprotected, mend_sectors, parity_sectors, round_count};
pub use planned::Planned;
pub use refusal::{ConfigFault, LoadFault, LoadKind, Refusal, RemoveFault};
pub use tree::{block_sectors, data_sectors, path_blocks, path_sectors, tree_sectors, verity_of};
pub use units::{crypt_of, unit_sectors};
pub use unstriped::striped_end;
