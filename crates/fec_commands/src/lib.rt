//! The commands on images with parity: `format --fec`, `verify --fec` and `table --fec`.
#![tactic(auto)]

mod covering;
mod fault;
mod fault_text;
mod finding;
mod fits;
mod fixed_size;
mod formatting;
mod growing;
mod image;
mod invoke;
mod needed;
mod protect;
mod sizes;
mod table;
mod verifying;
mod wanted;

pub use covering::covered_blocks;
pub use fault::FecFault;
pub use fault_text::{fec_status, say_fec_fault};
pub use formatting::invoke_format_fec;
pub use invoke::invoke_verify_fec;
pub use needed::parity_of;
pub use protect::write_synced;
pub use table::invoke_table_fec;
