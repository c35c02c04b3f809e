//! The counts of the requests of a session.
ghost use Rattle.std.specs.Prelude.{◌≡◌};
ghost use Rattle.nbd_server.specs.Tallies.{counted, moved_bytes, no_requests, one_more, one_more_if};

use nbd_protocol::{Command, RequestError};

/// How many requests were answered, the lengths of the READs and WRITEs within the export among them, in bytes, how many were
/// answered with a fault, and how many of these because a device has no space left.
///
/// Each number stays at 2^64 - 1 once it is reached.
#[derive(Clone, Copy, Debug, PartialEq, Eq)]
pub struct Tally {
    pub requests: u64,
    pub bytes: u64,
    pub faults: u64,
    pub full: u64,
}

/// Returns one more, up to 2^64 - 1.
pub(crate) fn one_more(count: u64) -> u64
    ensures { result ≡ one_more count }
{
    count.saturating_add(1)
}

// One more if it is set.
fn one_more_if(set: bool, count: u64) -> u64
    ensures { result ≡ one_more_if set count }
{
    if set { one_more(count) } else { count }
}

/// Returns the length of a READ or WRITE within the export, and 0 for other requests.
pub(crate) fn moved_bytes(command: Result<Command, RequestError>) -> u32
    ensures { result ≡ moved_bytes command }
{
    match command {
        Ok(Command::Read { length, .. }) => length,
        Ok(Command::Write { length, .. }) => length,
        Ok(Command::Zero { .. }) => 0,
        Ok(Command::Hint) => 0,
        Ok(Command::Cache { .. }) => 0,
        Ok(Command::Flush) => 0,
        Ok(Command::Status { .. }) => 0,
        Err(_) => 0,
    }
}

impl Tally {
    /// Returns the tally of no requests.
    pub fn none() -> Tally
        ensures { result ≡ no_requests }
    {
        Tally {
            requests: 0,
            bytes: 0,
            faults: 0,
            full: 0,
        }
    }

    /// Counts a request of that many bytes, which was answered with a fault if `faulty` is set, because a device has no space left if
    /// `full` is set.
    pub(crate) fn count(self, bytes: u32, faulty: bool, full: bool) -> Tally
        ensures { result ≡ counted bytes faulty full self }
    {
        Tally {
            requests: one_more(self.requests),
            bytes: self.bytes.saturating_add(u64::from(bytes)),
            faults: one_more_if(faulty, self.faults),
            full: one_more_if(full, self.full),
        }
    }
}
