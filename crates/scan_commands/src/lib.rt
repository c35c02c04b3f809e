//! Scans and copies a stack file's device or a disk, with or without a map file. It also formats devices and lost sectors as
//! lines of JSON, and devices as a tree.
#![tactic(auto)]

mod chart;
mod copy;
mod device_lines;
mod devices;
pub mod laws;
mod lost_json;
mod map_file;
mod map_texts;
mod map_use;
mod output;
mod pass_counts;
mod passing;
mod phase;
mod recovering_fault;
mod report;
mod rescue_fault;
mod retries;
mod scan;
mod tree;
mod tree_place;
mod tree_rows;
mod trimming;
mod turn_map;
mod turn_reads;
mod turns;

pub use copy::{CopyPlan, copy_device};
pub use device_lines::say_devices;
pub use devices::devices_line;
pub use map_file::{MapFile, MapPath, read_map};
pub use map_texts::say_pass_fault;
pub use pass_counts::PassCounts;
pub use passing::Passing;
pub use phase::Phase;
pub use recovering_fault::RecoveringFault;
pub use report::{has_missing, say_counts, tell_counts};
pub use rescue_fault::PassFault;
pub use scan::{ScanPlan, scan_device};
pub use tree::say_tree;
pub use turns::read_in_turns;
