//! The receivers of progress reports.

/// Receives the progress of a transfer between its pieces, and has a clock. What a transfer promises doesn't depend on it.
pub trait Progress {
    /// Begins a transfer whose progress is shown.
    fn begin(&mut self);

    /// Reports that `done` bytes are done, of `all` if that is known. Nothing is shown for a transfer that wasn't
    /// begun.
    fn tell(&mut self, done: u64, all: Option<u64>);

    /// Returns the seconds since an arbitrary start, or 0 if the clock fails.
    fn seconds(&mut self) -> u64;
}

/// Shows nothing, and its clock stands still.
#[derive(Drop)]
pub struct NoProgress;

impl Progress for NoProgress {
    fn begin(&mut self) {}

    fn tell(&mut self, _done: u64, _all: Option<u64>) {}

    fn seconds(&mut self) -> u64 {
        0
    }
}
