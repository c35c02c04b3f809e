//! Which faults of a session have a line: at most 60 in a minute, and none of a sector or data block that is remembered.
ghost use Rattle.std.specs.Prelude.{◌≡◌};
ghost use Rattle.nbd_server.specs.FaultLog.{begun_log, counted_fault, ended_count, has_line, is_minute_over, new_log, said_fault};

use crate::known_faults::{ExportFault, KnownFaults};
use crate::tally::one_more;

// The seconds from the beginning of a minute to the next one.
const MINUTE: u64 = 60;
// The most lines in a minute.
const MOST: u64 = 60;

/// The lines of the present minute, the faults that are remembered, and the count of those left out.
#[derive(Drop)]
pub(crate) struct FaultLog {
    /// A line begins with its priority.
    pub(crate) priorities: bool,
    /// When the minute began, in seconds.
    pub(crate) begun: u64,
    /// How many faults had a line in this minute.
    pub(crate) lines: u64,
    /// The faults that had a line last, up to 60. They are forgotten when one more has a line.
    pub(crate) known: KnownFaults,
    /// How many faults had no line in this minute.
    pub(crate) left_out: u64,
}

impl FaultLog {
    /// Returns the log of no faults.
    pub(crate) fn new(priorities: bool) -> FaultLog
        ensures { result ≡ new_log priorities }
    {
        FaultLog {
            priorities,
            begun: 0,
            lines: 0,
            known: KnownFaults::none(),
            left_out: 0,
        }
    }

    // Whether the minute is over.
    fn is_minute_over(&self, seconds: u64) -> bool
        ensures { result ≡ is_minute_over seconds self.now }
    {
        seconds.saturating_sub(self.begun) >= MINUTE
    }

    /// Begins the next minute if this one is over. Returns how many faults had no line in it then, else 0.
    pub(crate) fn begin(&mut self, seconds: u64) -> u64
        ensures count { result ≡ ended_count seconds self.old }
        ensures log { self.new ≡ begun_log seconds self.old }
    {
        if !self.is_minute_over(seconds) {
            return 0;
        }
        let count = self.left_out;
        self.begun = seconds;
        self.lines = 0;
        self.left_out = 0;
        count
    }

    // Whether a fault has a line.
    fn has_line(&self, fault: ExportFault) -> bool
        ensures { result ≡ has_line fault self.now }
    {
        self.lines < MOST && !self.known.has(fault)
    }

    /// Counts a fault, and returns it if it has a line.
    pub(crate) fn count(&mut self, fault: ExportFault) -> Option<ExportFault>
        ensures said { result ≡ said_fault fault self.old }
        ensures log { self.new ≡ counted_fault fault self.old }
    {
        if self.has_line(fault) {
            self.lines = one_more(self.lines);
            self.known.remember(fault);
            Some(fault)
        } else {
            self.left_out = one_more(self.left_out);
            None
        }
    }
}
