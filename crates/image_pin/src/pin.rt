//! The contents of a pin.
use tree_shape::{Digest, Salt};

/// A root hash, and the fields of a superblock that determine the tree below it: the salt, the block sizes in bytes,
/// and the number of data blocks. No hash covers a superblock, so a root hash alone doesn't determine them.
#[derive(Clone, Copy)]
pub struct Pin {
    pub root: Digest,
    pub salt: Salt,
    pub data_block: u32,
    pub hash_block: u32,
    pub blocks: u64,
}
