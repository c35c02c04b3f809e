//! What a table line names beside the image, and the tree that it names.
use image_pin::TrustedRoot;
use verity_format::{LineParity, VerityTree};

/// What a table line names beside the image: the root digest, and the device arguments of data and hashes.
#[derive(Clone, Copy)]
pub struct LineWords<'a> {
    pub root: &'a TrustedRoot,
    pub data_name: &'a str,
    pub hash_name: &'a str,
}

/// The tree of a table line, which begins at block `start` of the hash device, and the parity of its image, if there is some.
#[derive(Clone, Copy)]
pub struct LineTree<'a> {
    pub tree: &'a VerityTree,
    pub start: u64,
    pub parity: Option<LineParity<'a>>,
}
