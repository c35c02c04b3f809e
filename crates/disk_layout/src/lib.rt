//! A GUID partition table that is made: where its partitions lie, and the bytes at both ends of the disk.
#![tactic(auto)]

mod ends;
mod entries;
mod header;
pub mod laws;
mod mbr;
mod numbers;
mod partition;
mod parts;
mod writing;

pub use ends::{TableEnds, back_sector, table_ends};
pub use partition::{label_of, partition_at};
pub use parts::{DiskParts, disk_parts};
pub use writing::write_ends;
