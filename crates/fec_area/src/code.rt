//! The codewords of an image, and the factors that recover their lost bytes.
use crate::layout::Layout;
use reed_solomon::Products;

/// The layout of codewords across an image, and the multiplication tables of its bytes: `count` sums are computed for
/// each codeword, and the `count` tables of a byte follow those of the byte before it.
#[derive(Clone, Copy)]
pub(crate) struct Code<'a> {
    pub layout: &'a Layout,
    pub count: usize,
    pub products: &'a [Products],
}

/// A block that may have wrong bytes: its round, its position in the round's codewords, and its index among the covered blocks.
#[derive(Clone, Copy)]
pub(crate) struct Suspect<'a> {
    pub code: Code<'a>,
    pub round: u64,
    pub place: usize,
    pub index: u64,
}

/// The lost blocks of a round, by their positions in its codewords.
#[derive(Clone, Copy)]
pub(crate) struct Gap<'a> {
    pub code: Code<'a>,
    pub round: u64,
    pub places: &'a [usize],
}
