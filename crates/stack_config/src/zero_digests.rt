//! The digests of data blocks of zeros for `verity` lines with `ignore_zero_blocks`.
ghost use Rattle.std.specs.Prelude.{◌≡◌, slice_get, option_and_then};

use std::marker::Model;
use tree_shape::Digest;

/// The digest for each line of a device, in order, if it is such a line.
#[derive(Drop)]
pub struct ZeroDigests {
    lines: Vec<Option<Digest>>,
}

impl Model for ZeroDigests {
    ghost use Rattle.std.specs.Prelude.{List, Option, ℕ};

    ghost Value = { List (Option (List ℕ)) };

    ghost view = { λ z. z.lines.items };
}

impl ZeroDigests {
    /// Returns these digests, one for each line.
    pub fn new(lines: Vec<Option<Digest>>) -> ZeroDigests
        ensures { result ≡ lines.items }
    {
        ZeroDigests { lines }
    }

    /// Returns the digest for a line, if there is one.
    pub(crate) fn at(&self, line: u32) -> Option<Digest>
        ensures { result ≡ option_and_then (λ digest. digest) (slice_get self.now line) }
    {
        match self.lines.get(line as usize) {
            Some(digest) => *digest,
            None => None,
        }
    }
}
