//! Reads the words of a command line by clap, against one table of commands and options.
#![tactic(auto)]

mod grammar;
mod option_names;
mod option_rows;
mod option_words;
mod parser;
mod rows;
mod seal;
mod unread;

pub use parser::{CommandLine, parse};
