//! SHA-256 (FIPS 180-4) of eight messages of equal length, computed side by side.
#![tactic(auto)]

mod big_endian;
mod digests;
mod functions;
mod hashing;
mod message;
mod rounds;
mod vectors;

pub use hashing::digest_eight;
