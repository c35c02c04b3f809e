//! A loaded configuration of stacked devices, and the values computed once for it.
#![tactic(auto)]

mod config;
mod facts;
mod keys;
mod sectors;
mod zero_digests;

pub use config::Config;
pub use facts::{DeviceFacts, Facts};
pub use keys::{DeviceKeys, LineKey};
pub use stack_rules::{DevId, Leaf, Lower, verity_of};
pub use zero_digests::ZeroDigests;
