//! Messages of the NBD protocol: exports, options of the handshake and their replies, requests, and the chunks of structured
//! replies.
#![tactic(auto)]

mod chunk;
mod contexts;
mod export;
mod exports;
mod fault;
mod header;
mod information;
mod intake;
mod numbers;
mod offers;
mod option;
mod option_reply;
mod phase;
mod request_error;

pub use chunk::{say_data, say_error, say_error_at, say_hole, say_none, say_status};
pub use export::Export;
pub use exports::export_at;
pub use fault::ServiceFault;
pub use header::{BLOCK_STATUS, Command, DISCONNECT, Header, MOST_LENGTH};
pub use intake::{fill, fill_part, skip, take_sectors};
pub use numbers::{number32, put32, put64};
pub use offers::{exports_of, names_of};
pub use option::{ABORT, EXPORT_NAME, names_export, phase_after, say_answer, terms_after_long};
pub use option_reply::{Refusal, acknowledge, refuse};
pub use phase::{Agreement, MOST_OPTIONS, Phase, Terms};
pub use request_error::RequestError;
