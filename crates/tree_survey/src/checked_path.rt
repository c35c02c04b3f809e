//! The hash blocks on the path to a data block, during a scan of data blocks.
ghost use Rattle.std.specs.Prelude.{◌≡◌};
ghost use Rattle.tree_shape.specs.Shape.{levels};
ghost use Rattle.tree_survey.specs.Failing.{IsReadOver};
ghost use Rattle.tree_survey.specs.CheckedPaths.{CanGoDown, HasGone, none_read, state_at, state_by};

use crate::path::{Descent, descend};
use block_device::BlockDev;
use runs::Kind;
use tree_path::{TreePath, top_at};
use tree_shape::{Digest, Shape};
use verity_format::is_same;

/// The path, its shape, the level from which up its hash blocks verify, and whether the hash block below that level can't be
/// read.
#[derive(Drop)]
pub(crate) struct CheckedPath {
    pub(crate) path: TreePath,
    pub(crate) shape: Shape,
    pub(crate) good: u32,
    pub(crate) unread: bool,
}

impl CheckedPath {
    /// Returns a path of which nothing was read.
    pub(crate) fn new(path: TreePath, shape: Shape) -> CheckedPath
        ensures { result ≡ none_read path shape }
    {
        let good = path.levels();
        CheckedPath {
            path,
            shape,
            good,
            unread: false,
        }
    }

    /// Moves to the next data block. It reads the hash blocks of the new path that aren't on the old one, down to the first
    /// that doesn't verify or can't be read.
    pub(crate) fn go_to<H: BlockDev>(&mut self, device: &mut H, index: u64)
        requires { CanGoDown self.old (H.state device.old) index }
        ensures over { IsReadOver (H.state device.old) (H.state device.new) }
        ensures gone { HasGone self.old self.new (H.state device.old) (H.state device.new) index }
    {
        let top = top_at(&self.shape, self.path.levels(), index);
        if top < self.good {
            return;
        }
        match descend(&mut self.path, device, index, top) {
            Descent::All => self.end(0, false),
            Descent::Bad(level) => self.end(level + 1, false),
            Descent::Unread(level) => self.end(level + 1, true),
        }
    }

    // Records that the hash blocks verify from level `good` up.
    fn end(&mut self, good: u32, unread: bool)
        ensures { self.new ≡ record self.old { good = good; unread = unread } }
    {
        self.good = good;
        self.unread = unread;
    }

    /// Returns the state of the current data block by its digest; `None` for the digest if the block couldn't be read.
    pub(crate) fn state(&self, index: u64, found: Option<Digest>) -> Option<Kind>
        ensures { result ≡ state_at self.now index found }
    {
        if self.good > 0 {
            return Some(Kind::Unknown);
        }
        match found {
            Some(digest) => self.state_by(index, &digest),
            None => Some(Kind::Changed),
        }
    }

    // The state of a data block whose hash blocks all verify.
    fn state_by(&self, index: u64, digest: &Digest) -> Option<Kind>
        ensures { result ≡ state_by self.now.path index digest.now }
    {
        if is_same(digest, &self.path.digest_at(0, index)) {
            return None;
        }
        Some(Kind::Changed)
    }
}
