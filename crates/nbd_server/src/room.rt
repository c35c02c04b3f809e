//! The buffer into which the pieces of a reply are read.
ghost use Rattle.std.specs.Prelude.{◌≡◌, ◌≤◌, ◌+◌, drop, take};

use std::alloc::Global;

// The most bytes of the sectors that a piece touches: 1 MiB and the rest of two sectors.
const MOST_BYTES: usize = 1_049_088;

/// An allocator, and a buffer for the longest piece.
#[derive(Drop)]
pub(crate) struct Room {
    pub(crate) alloc: Global,
    pub(crate) bytes: [u8; MOST_BYTES],
}

impl Room {
    /// Returns a buffer of zeros.
    pub(crate) fn new(alloc: Global) -> Room {
        Room {
            alloc,
            bytes: [0; MOST_BYTES],
        }
    }

    /// Returns `count` bytes of the buffer, from `start` on.
    pub(crate) fn part(&self, start: usize, count: usize) -> &[u8]
        requires { start + count ≤ MOST_BYTES }
        ensures { result.now ≡ take count (drop start self.now.bytes) }
    {
        &self.bytes[start..start + count]
    }
}
