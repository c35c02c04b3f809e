//! Serves the sectors of a device-mapper stack over lines of text.
#![tactic(auto)]

mod access;
mod command;
mod fault;
mod lines;
mod reply;
mod server;
mod verb;

pub use fault::SessionFault;
pub use io_fault_text::{say_refused, say_usage};
pub use lines::LIMIT;
pub use reply::{say_refusal, say_reply, say_submit_fault, say_text_fault, say_written};
pub use server::session;
