//! The pieces in which a search reads.
ghost use Rattle.std.specs.Prelude.{◌≡◌, ◌+◌, ◌*◌, ◌≤◌, ◌<◌, ◌^◌};
ghost use Rattle.find_commands.specs.Searches.{lost_by};

/// The most sectors of a piece.
pub(crate) const MOST_PIECE: u64 = 128;

/// Where a search is: the next sector, the most sectors of the next piece, the end of the last piece of several sectors that
/// couldn't be read, and how many sectors are lost. Up to that end, pieces have one sector.
#[derive(Clone, Copy)]
pub(crate) struct Position {
    pub(crate) at: u64,
    pub(crate) most: u64,
    pub(crate) doubt: u64,
    pub(crate) lost: u64,
}

impl Position {
    pub(crate) fn new() -> Position
        ensures at { result.at ≡ 0 }
        ensures most { result.most ≡ 128 }
        ensures lost { result.lost ≡ 0 }
    {
        Position {
            at: 0,
            most: MOST_PIECE,
            doubt: 0,
            lost: 0,
        }
    }

    /// Returns how many sectors the next piece has, before sector `end`.
    pub(crate) fn piece(&self, end: u64) -> u64
        requires { (self.now.at < end) × (1 ≤ self.now.most) }
        ensures some { 1 ≤ result }
        ensures few { result ≤ self.now.most }
        ensures inside { self.now.at + result ≤ end }
    {
        self.most.min(end - self.at)
    }

    /// Returns the position after a piece of `count` sectors was read.
    pub(crate) fn after_read(self, count: u64) -> Position
        requires { (1 ≤ count) × (self.at + count ≤ 2 ^ 54) }
        ensures moved { (result.at ≡ self.at + count) × (result.lost ≡ self.lost) }
        ensures most { (1 ≤ result.most) × (result.most ≤ 128) }
        ensures on { result.most + 256 * self.at < count + 256 * result.at }
    {
        let at = self.at + count;
        Position {
            at,
            most: most_from(at, self.doubt),
            doubt: self.doubt,
            lost: self.lost,
        }
    }

    /// Returns the position after a piece of `count` sectors couldn't be read: one sector is lost, several are read again, each by
    /// itself.
    pub(crate) fn after_failure(self, count: u64) -> Position
        requires { (1 ≤ count) × (self.at + count ≤ 2 ^ 54) × (self.lost ≤ self.at) }
        ensures moved { (result.at ≡ self.at + lost_by count) × (result.lost ≡ self.lost + lost_by count) × (result.at ≤ self.at + count) }
        ensures most { (1 ≤ result.most) × (result.most ≤ 128) }
        ensures on { result.most + 256 * self.at < count + 256 * result.at }
    {
        if count == 1 {
            let at = self.at + 1;
            Position {
                at,
                most: most_from(at, self.doubt),
                doubt: self.doubt,
                lost: self.lost + 1,
            }
        } else {
            Position {
                at: self.at,
                most: 1,
                doubt: self.at + count,
                lost: self.lost,
            }
        }
    }
}

// The most sectors of a piece from sector `at` on.
fn most_from(at: u64, doubt: u64) -> u64
    ensures least { 1 ≤ result }
    ensures most { result ≤ 128 }
{
    if at < doubt { 1 } else { MOST_PIECE }
}
