//! Two trees that are compared.
ghost use Rattle.std.specs.Prelude.{◌≡◌, IfErr, OnOk};
ghost use Rattle.std.specs.Str.{bytes_eq};
ghost use Rattle.tree_difference.specs.Likeness.{unlike};
ghost use Rattle.tree_difference.specs.Refusals.{CanCompareTrees, IsPairRefused};

use crate::fault::{DifferenceFault, Unlike, Which};
use tree_shape::{Digest, Salt};
use verity_format::{VerifyFault, VerityTree, tree_sectors};

/// The root hashes of two trees.
#[derive(Clone, Copy, Debug, PartialEq, Eq)]
pub struct Roots {
    pub first: Digest,
    pub second: Digest,
}

/// Two trees, and their root hashes.
#[derive(Clone, Copy)]
pub struct TreePair {
    pub first: VerityTree,
    pub second: VerityTree,
    pub roots: Roots,
}

/// Returns the first difference of two trees that makes their digests incomparable, if there is one.
pub fn check_alike(first: &VerityTree, second: &VerityTree) -> Option<Unlike>
    ensures { result ≡ unlike first.now second.now }
{
    if first.shape.data_block() != second.shape.data_block() {
        return Some(Unlike::DataBlockSize);
    }
    if first.shape.hash_block() != second.shape.hash_block() {
        return Some(Unlike::HashBlockSize);
    }
    if !is_same_salt(&first.salt, &second.salt) {
        return Some(Unlike::Salt);
    }
    None
}

/// Tests whether two trees can be compared on devices of so many sectors.
///
/// # Errors
///
/// The first that applies, in this order:
///
/// - `Image` with `TooSmall` if the first tree doesn't fit on its device, or the second one on its own.
/// - `Unlike` if the trees are incomparable.
pub(crate) fn check_pair(pair: &TreePair, first: u64, second: u64) -> Result<(), DifferenceFault>
    ensures ok { OnOk result (CanCompareTrees pair.now first second) }
    ensures err { IfErr result (IsPairRefused pair.now first second) }
{
    let one = tree_sectors(&pair.first.shape);
    let two = tree_sectors(&pair.second.shape);
    if first < one {
        return Err(DifferenceFault::Image(Which::First, VerifyFault::TooSmall));
    }
    if second < two {
        return Err(DifferenceFault::Image(Which::Second, VerifyFault::TooSmall));
    }
    match check_alike(&pair.first, &pair.second) {
        Some(field) => Err(DifferenceFault::Unlike(field)),
        None => Ok(()),
    }
}

fn is_same_salt(first: &Salt, second: &Salt) -> bool
    ensures { result ≡ bytes_eq first.now second.now }
{
    first.bytes() == second.bytes()
}
