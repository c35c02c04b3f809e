//! The shape of a dm-verity hash tree, its digests, and the salt that is hashed before each block.
#![tactic(auto)]

mod algorithm;
mod digest;
mod salt;
mod shape;

pub use algorithm::Algorithm;
pub use digest::{Digest, digest_in};
pub use salt::Salt;
pub use shape::{Shape, ShapeFault, is_block_size};
