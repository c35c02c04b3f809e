//! The median time of several runs.

pub const RUNS: usize = 15;

/// Returns the median of the times.
pub fn median(mut times: Vec<u128>) -> u128 {
    times.sort_unstable();
    times.get(RUNS / 2).copied().unwrap_or(0)
}
