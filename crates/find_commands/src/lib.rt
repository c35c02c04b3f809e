//! Finds the headers of partition tables, hash trees, encrypted devices and file systems on a disk.
#![tactic(auto)]

mod area;
mod checksum;
mod crypt_line;
mod fields;
mod find;
mod finding;
mod header;
mod kind;
pub mod laws;
mod line;
mod listing;
mod luks;
mod object;
mod piece;
mod search;
mod sectors;
mod segments;
mod signatures;

pub use checksum::Checksum;
pub use find::invoke_find;
pub use finding::{Finding, found_at};
pub use kind::Kind;
pub use line::say_finding;
pub use listing::{FindingList, KeptFindings, ListFault};
pub use search::find_in;
