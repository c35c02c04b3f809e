//! AES of sixteen blocks at once, bitsliced.
#![tactic(auto)]

mod blocks;
mod cipher;
mod circuit;
mod columns;
mod inverse_circuit;
mod keys;
mod lanes_key;
mod planes;
mod rounds;
mod rows;
mod sums;

pub use lanes_key::LanesKey;
