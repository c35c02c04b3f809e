//! Charts: maps of blocks or sectors as text, at most 16 rows of 64 characters.
#![tactic(auto)]

mod chart;
mod form;

pub use chart::{Marks, is_touched, say_chart};
pub use form::ReportForm;
