//! Loading configurations of stacked devices: a load is checked as a whole by the rules, depths and costs are
//! computed, and all of it is loaded or nothing.
#![tactic(auto)]

mod check;
mod cost;
mod cycles;
mod depth;
mod device_set;
mod facts;
mod index;
mod keys;
mod leaves;
mod loading;
mod lower_set;
mod next;
mod ranges;
mod removal;
mod resolve;
mod rules;
mod units;
mod zero_digests;

pub use loading::{config_over, load};
pub use lower_set::MOST_DEVICES;
pub use removal::remove;
pub use stack_rules::{ConfigFault, LoadFault, LoadKind, Refusal, RemoveFault};
