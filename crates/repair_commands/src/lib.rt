//! The command `repair`: repairs the images at some paths under a root hash, and writes lines or returns the fault.
#![tactic(auto)]

mod by_parity;
mod copies;
mod counters;
mod devices;
mod fault;
mod found_tree;
pub mod laws;
mod mending;
mod nowhere;
mod only_read;
mod opening;
mod pair;
mod parity;
mod repair;
mod rest;
mod syncing;
mod unused;

pub use by_parity::repair_by_parity;
pub use counters::{Counters, counters_of};
pub use devices::{devices_of, repair_devices};
pub use fault::ParityRepairFault;
pub use nowhere::Nowhere;
pub use opening::{Copies, Opened, open_all};
pub use pair::{Pair, Parts, RepairPlaces};
pub use repair::{give_back, repair_images};
pub use rest::fault_of;
