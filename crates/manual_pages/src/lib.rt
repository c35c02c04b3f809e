//! What `dmstack manual` and `dmstack version` print, and the explanations on standard error: of usage errors, refusals and faults.
#![tactic(auto)]

mod cause;
mod command;
mod commands;
mod help;
mod message_line;
mod messages;
mod page;
mod pages;
mod usage_error;
mod version;

pub use message_line::print_message;
pub use messages::accesses::io_message;
pub use messages::images::{format_message, verify_message};
pub use messages::leaves::leaves_message;
pub use messages::linux::linux_message;
pub use messages::loads::load_message;
pub use messages::maps::{map_message, unwritten_map_message};
pub use messages::opening::open_message;
pub use messages::parity::parity_message;
pub use messages::pins::{mismatch_message, pin_message, unwritten_pin_message};
pub use messages::texts::text_message;
pub use page::{Page, page_of, print_page};
pub use usage_error::print_usage_error;
pub use version::print_version;
