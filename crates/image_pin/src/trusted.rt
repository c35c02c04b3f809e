//! What is trusted of an image.
use crate::pin::Pin;
use tree_shape::Digest;

/// The root hash of an image, and the pin that it comes from if a pin was given. Without a pin the shape of the tree is the
/// superblock's, which no hash covers.
#[derive(Clone, Copy)]
pub struct TrustedRoot {
    pub root: Digest,
    pub pin: Option<Pin>,
}
