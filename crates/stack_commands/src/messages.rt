//! The sentences on commands that end early, a file a kind of command.
pub mod commands;
pub mod images;
pub mod partitions;
pub mod scans;
pub mod services;
pub mod stacks;
pub mod streams;
pub mod trees;
