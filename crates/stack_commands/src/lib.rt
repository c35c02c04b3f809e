//! The commands of the program: words and a reader in, a written text and a status out.
#![tactic(auto)]

mod client;
mod command_end;
mod context;
mod copy;
mod diff;
mod ending;
mod ending_object;
mod ending_parts;
mod export_log;
mod fault;
mod fault_texts;
mod invocation;
pub mod laws;
mod load;
mod messages;
mod nbd;
mod program;
mod read;
mod repair;
mod scan;
mod serve;
mod service_log;
mod streams;
mod tree_verify;
mod update;
mod verify;
mod words;
mod write;

pub use ending::end;
pub use fault::CommandFault;
pub use program::{command, writes_data};
