//! How far the reply to a READ has come.
ghost use Rattle.std.specs.Prelude.{◌≡◌, ◌<◌, ◌≤◌, ◌+◌, ◌^◌, IfErr, IfOk};
ghost use Rattle.nbd_server.specs.Delivery.{at_first, next_most, progress_after, progress_again};
ghost use Rattle.nbd_server.specs.Status.{touched};

use crate::byte_range::touched;
use crate::failure::Failure;

// The most sectors that a piece touches.
const MOST_SECTORS: u64 = 2048;

// The most sectors that a piece touches if a larger one couldn't be read.
const FEW_SECTORS: u64 = 8;

/// How many bytes are answered, the byte before which the rest is read by pieces of at most 8 sectors, and that before which it
/// is read sector by sector.
#[derive(Clone, Copy, Debug, PartialEq, Eq)]
pub(crate) struct Progress {
    pub(crate) done: u32,
    pub(crate) slow: u32,
    pub(crate) single: u32,
}

impl Progress {
    /// The progress of a READ of which nothing was read yet.
    pub(crate) fn none() -> Progress
        ensures { result ≡ at_first }
    {
        Progress {
            done: 0,
            slow: 0,
            single: 0,
        }
    }

    /// The most sectors that the next piece touches.
    pub(crate) fn most(self) -> u64
        ensures { result ≡ next_most self }
    {
        if self.done < self.single {
            return 1;
        }
        if self.done < self.slow {
            return FEW_SECTORS;
        }
        MOST_SECTORS
    }

    /// The progress after a piece of `size` bytes was answered.
    pub(crate) fn after(self, size: u32) -> Progress
        requires { self.done + size < 2 ^ 32 }
        ensures { result ≡ progress_after self size }
    {
        Progress {
            done: self.done + size,
            slow: self.slow,
            single: self.single,
        }
    }

    /// The progress after a piece of `size` bytes from `at` on couldn't be read, or the failure if the piece lies in one sector.
    pub(crate) fn again(self, at: u64, size: u32, error: Failure) -> Result<Progress, Failure>
        requires { self.done + size < 2 ^ 32 }
        ensures ok { IfOk result (λ next. (1 < touched at size) × (next ≡ progress_again self size (touched at size))) }
        ensures err { IfErr result (λ lost. (touched at size ≤ 1) × (lost ≡ error)) }
    {
        let sectors = touched(at, size) as u64;
        if sectors <= 1 {
            return Err(error);
        }
        let end = self.done + size;
        if sectors > FEW_SECTORS {
            return Ok(Progress {
                done: self.done,
                slow: end,
                single: self.single,
            });
        }
        Ok(Progress {
            done: self.done,
            slow: self.slow,
            single: end,
        })
    }
}
