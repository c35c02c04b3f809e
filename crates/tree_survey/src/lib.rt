//! A scan of a whole image: which of its data blocks are valid under a root hash.
#![tactic(auto)]

mod attempt;
mod checked_path;
mod counts;
mod fault;
mod hashes;
pub mod laws;
mod path;
mod pieces;
mod survey;
mod unused;

pub use counts::Totals;
pub use fault::SurveyFault;
pub use hashes::survey_hashes;
pub use survey::{Survey, survey_image};
pub use unused::{Unused, read_unused};
