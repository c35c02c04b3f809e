//! Maximal runs of blocks or sectors of the same kind, and the listings that receive the runs of data blocks during a
//! scan of a tree: a writer, or a list that is converted to JSON.
#![tactic(auto)]

mod kind;
mod limit;
mod line;
mod listing;
mod object;
mod run;
mod tally;

pub use kind::Kind;
pub use limit::Limit;
pub use line::Line;
pub use listing::{KeptLines, Listing};
pub use object::{hashes_value, runs_value, says_more};
pub use run::Run;
pub use tally::Tally;
