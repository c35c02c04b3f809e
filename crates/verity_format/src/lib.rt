//! Verity images: the superblock, formatting a hash image for a data image, and verifying one.
#![tactic(auto)]

mod access;
mod chains;
mod comparing;
mod decoding;
mod formatting;
mod growth;
pub mod laws;
mod making;
mod superblock;
mod table;
mod tree;
mod verifying;
mod writing;

pub use access::{data_sectors, image_sectors, is_same, tree_sectors};
pub use chains::{ChainFault, read_chain};
pub use decoding::{SuperFault, decode};
pub use formatting::{FormatFault, FormatOptions, format, format_with, given_blocks};
pub use making::{check_room, make_tree};
pub use superblock::Superblock;
pub use table::{LineDevices, LineParity, table_line, table_line_at};
pub use tree::VerityTree;
pub use verifying::{Verdict, VerifyFault, read_superblock, verify, verify_tree};
