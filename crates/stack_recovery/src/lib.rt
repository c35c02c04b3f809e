//! Scans all sectors of a mapped device, and reports which of them can be read.
#![tactic(auto)]

mod deadline;
mod discard;
mod fault;
mod joining;
pub mod laws;
mod listing;
mod losing;
mod lost_run;
mod notes;
mod piece;
mod piece_limit;
mod recovery;
mod rescued;
mod skimming;
mod skip;
mod stretch;
mod tally;
mod trimming;
mod way;

pub use deadline::{Deadline, DevicePass, FirstPass};
pub use discard::Discard;
pub use fault::RecoveryFault;
pub use joining::tell_among_bad;
pub use listing::{KeptRuns, Listing, NoListing};
pub use lost_run::{Loss, LostRun, is_same};
pub use piece::{Piece, piece_at};
pub use piece_limit::PieceLimit;
pub use recovery::{Counts, Course};
pub use rescued::{Rescued, rescue};
pub use skimming::{Skimmed, skim};
pub use skip::{LEAST_SKIP, most_skip};
pub use way::Way;
