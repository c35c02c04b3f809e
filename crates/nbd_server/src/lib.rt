//! Serves a mapped device to a client of the NBD protocol, and reports which of its sectors are zeros.
#![tactic(auto)]

mod byte_range;
mod content;
mod data_block;
mod delivery;
mod error_text;
mod extent;
mod failure;
mod fast_zero;
mod fault_lines;
mod fault_log;
mod fetch;
mod haggling;
mod journal;
mod known_faults;
mod log_output;
mod lost;
mod piece;
mod prefetch;
mod progress;
mod read_status;
mod reply;
mod room;
mod service;
mod session;
mod session_end;
mod session_log;
mod session_state;
mod status;
mod store;
mod tally;
mod transmission;
mod undivided;
mod zeros;

pub use data_block::DataBlock;
pub use journal::Journal;
pub use known_faults::{ExportFault, SectorFault};
pub use log_output::LogOutput;
pub use nbd_protocol::{Export, ServiceFault};
pub use service::{serve, serve_logged};
pub use session_end::SessionEnd;
pub use session_log::SessionLog;
pub use tally::Tally;
