//! The parity of verity images: codewords across the blocks of the data and of the hash area, in the layout of
//! Linux's dm-verity-fec.
#![tactic(auto)]

mod checking;
mod code;
mod correcting;
mod covered;
pub mod laws;
mod layout;
mod restoring;
mod round;
mod writing;

pub use checking::check_parity;
pub use correcting::correct_block;
pub use layout::Layout;
pub use restoring::{LostBlock, RestoreFault, restore_block};
pub use writing::{ParityFault, write_parity};
