//! The lists of where data blocks are.
use crate::listed::ListedBlocks;

/// The data blocks of an image that is updated, and those of each of its copies, as far as they are listed.
#[derive(Drop)]
pub struct BlockLists {
    pub own: Option<ListedBlocks>,
    pub copies: Vec<Option<ListedBlocks>>,
}
