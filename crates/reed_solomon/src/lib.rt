//! Reed-Solomon codes over the field of 256 elements, with codewords of 255 bytes: encoding, recovery of erased bytes, and
//! correction of wrong bytes.
#![tactic(auto)]

mod columns;
mod correcting;
mod encoding;
mod errors;
mod field;
pub mod laws;
mod products;
mod restoring;
mod sums;
mod tables;

pub use columns::{add_products, parity_products, restoring_products};
pub use correcting::correct;
pub use encoding::{encode, is_codeword, syndrome};
pub use field::{inverse, multiply, power};
pub use products::Products;
pub use restoring::{combination, erasure_factor, factors, restore};
pub use sums::{add_parity, add_parity_products};
