//! A hash tree with or without a superblock before it.
use tree_shape::{Salt, Shape};

/// The shape of a tree, and the salt that is hashed before each block. The tree begins at hash block `shape.start()`
/// of its device: 1 after a superblock, 0 without one.
#[derive(Clone, Copy)]
pub struct VerityTree {
    pub shape: Shape,
    pub salt: Salt,
}
