//! The status of bytes in a map file.
ghost use Rattle.std.specs.Prelude.{◌≡◌, ◌≤◌, length};
ghost use Rattle.rescue_map.specs.Statuses.{is_bad, is_recovered, is_same, least, letter, rank, status_named};

/// The status of a byte in a map file, from the least advanced one on.
#[derive(Clone, Copy, Debug, PartialEq, Eq)]
pub enum Status {
    /// `?`.
    Untried,
    /// `*`: in a failed read, not trimmed.
    Untrimmed,
    /// `/`: in a failed read, not scraped.
    Unscraped,
    /// `-`.
    Bad,
    /// `+`.
    Recovered,
}

pub(crate) fn is_recovered(status: Status) -> bool
    ensures { result ≡ is_recovered status }
{
    match status {
        Status::Recovered => true,
        _ => false,
    }
}

pub(crate) fn is_bad(status: Status) -> bool
    ensures { result ≡ is_bad status }
{
    match status {
        Status::Bad => true,
        _ => false,
    }
}

fn rank(status: Status) -> u8
    ensures { result ≡ rank status }
{
    match status {
        Status::Untried => 0,
        Status::Untrimmed => 1,
        Status::Unscraped => 2,
        Status::Bad => 3,
        Status::Recovered => 4,
    }
}

/// Returns whether two statuses are the same.
pub(crate) fn is_same(a: Status, b: Status) -> bool
    ensures { result ≡ is_same a b }
{
    rank(a) == rank(b)
}

/// Returns the less advanced of two statuses.
pub(crate) fn least(a: Status, b: Status) -> Status
    ensures { result ≡ least a b }
{
    if rank(a) <= rank(b) { a } else { b }
}

/// Returns the status with that letter.
pub(crate) fn status_named(letter: u8) -> Option<Status>
    ensures { result ≡ status_named letter }
{
    if letter == b'+' {
        return Some(Status::Recovered);
    }
    if letter == b'-' {
        return Some(Status::Bad);
    }
    if letter == b'/' {
        return Some(Status::Unscraped);
    }
    if letter == b'*' {
        return Some(Status::Untrimmed);
    }
    if letter == b'?' {
        return Some(Status::Untried);
    }
    None
}

/// Returns the letter of a status.
pub(crate) fn letter(status: Status) -> &'static [u8]
    ensures value { result.now ≡ letter status }
    ensures short { length result.now ≤ 40 }
{
    match status {
        Status::Untried => b"?",
        Status::Untrimmed => b"*",
        Status::Unscraped => b"/",
        Status::Bad => b"-",
        Status::Recovered => b"+",
    }
}
