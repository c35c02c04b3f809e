//! Where two chains differ.
ghost use Rattle.std.specs.Prelude.{◌≡◌, IfSome, IfNone, length, map};
ghost use Rattle.hash_tree.specs.Difference.{IsTopmostDifference, HaveNoDifference, FirstDiffer};

use crate::Chain;

/// A block of a chain: the hash block at that index of its path, or the content.
#[derive(Clone, Copy, Debug, PartialEq, Eq)]
pub enum Place {
    Hash(u64),
    Content,
}

/// The topmost place at which two chains of one index and one length differ.
pub fn collide(expected: &Chain, got: &Chain) -> Option<Place>
    ensures found { IfSome result (λ place. IsTopmostDifference expected.now got.now place) }
    ensures none { IfNone result (HaveNoDifference expected.now got.now) }
{
    if expected.index != got.index || expected.path.len() != got.path.len() {
        return None;
    }
    if let Some(k) = first_difference(&expected.path, &got.path) {
        return Some(Place::Hash(k as u64));
    }
    if expected.content.as_slice() != got.content.as_slice() {
        return Some(Place::Content);
    }
    None
}

/// The index of the first block in which two lists of one length differ.
fn first_difference(a: &[Vec<u8>], b: &[Vec<u8>]) -> Option<usize>
    requires { length a.now ≡ length b.now }
    ensures found { IfSome result (λ k. FirstDiffer (map (λ b. b.items) a.now) (map (λ b. b.items) b.now) k) }
    ensures none { IfNone result (map (λ b. b.items) a.now ≡ map (λ b. b.items) b.now) }
{
    for k in 0..a.len() {
        if a[k].as_slice() != b[k].as_slice() {
            return Some(k);
        }
    }
    None
}
