//! The sentences on commands that end early, a file a kind of cause.
pub mod accesses;
pub mod images;
pub mod leaves;
pub mod linux;
pub mod loads;
pub mod maps;
pub mod opening;
pub mod parity;
pub mod pins;
pub mod texts;
