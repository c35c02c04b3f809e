//! The lengths of the next pieces of a transfer.
ghost use Rattle.std.specs.Prelude.{◌≡◌, ◌≤◌, ◌<◌, ◌^◌};
ghost use Rattle.stack_recovery.specs.Pieces.{IsPieceLimit};
ghost use Rattle.stack_recovery.specs.PieceLimits.{first_limit, limit_after_bytes, limit_after_failure};

/// The most sectors of a piece, unless more are lost together.
pub(crate) const MOST_PIECE: u32 = 128;

/// The most sectors of the next piece, and the end of the last piece that couldn't be read whole. Pieces get no longer up to this
/// sector, and have up to 128 sectors after it.
#[derive(Clone, Copy)]
pub struct PieceLimit {
    pub most: u32,
    pub doubt: u64,
}

impl PieceLimit {
    /// Returns the limit before any sector is known.
    pub fn new() -> PieceLimit
        ensures piece_limit { IsPieceLimit result.most }
        ensures value { result ≡ first_limit }
    {
        PieceLimit {
            most: MOST_PIECE,
            doubt: 0,
        }
    }

    /// Returns the limit after a piece of `count` sectors was read; `at` is the next sector. The next piece is at most half as
    /// long up to the end of the last piece that couldn't be read whole, and after it has at most 128 sectors, so that few reads fail.
    pub fn after_bytes(self, count: u32, at: u64) -> PieceLimit
        requires { IsPieceLimit count }
        ensures piece_limit { IsPieceLimit result.most }
        ensures value { result ≡ limit_after_bytes self count at }
    {
        let most = if at < self.doubt {
            (count / 2).max(1)
        } else {
            MOST_PIECE
        };
        PieceLimit {
            most,
            doubt: self.doubt,
        }
    }

    /// Returns the limit after a piece of `count` sectors, which ends before sector `end`, couldn't be read whole: half of it.
    pub fn after_failure(count: u32, end: u64) -> PieceLimit
        requires some { 2 ≤ count }
        requires few { count ≤ 128 }
        ensures piece_limit { IsPieceLimit result.most }
        ensures less { result.most < count }
        ensures value { result ≡ limit_after_failure count end }
    {
        PieceLimit {
            most: count / 2,
            doubt: end,
        }
    }
}
