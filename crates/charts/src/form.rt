//! How a command reports what it found.

/// How a command reports what it found.
#[derive(Clone, Copy, Debug, PartialEq, Eq)]
pub enum ReportForm {
    /// A line for each run, and the counts.
    Lines,
    /// A line for each run, a map, and the counts, all at the end.
    Chart,
    /// One JSON object.
    Object,
}
