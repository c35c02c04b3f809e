//! When a pass over a mapped device ends.
ghost use Rattle.std.specs.Prelude.{◌≡◌, ◌≤◌, IsTrue};
ghost use Rattle.stack_recovery.specs.Deadlines.{EndsAt, MayEnd};

use crate::way::{Way, is_backward};
use device_adapters::Progress;
use stack_config::DevId;

/// A pass may end early, before a sector after `first` or after reads backwards, once the clock shows `seconds`.
#[derive(Clone, Copy)]
pub struct Deadline {
    pub first: u64,
    pub seconds: u64,
}

/// A pass over a mapped device in large pieces: to its last sector, or up to a deadline. After its first failed read it skips `skip`
/// sectors, and after a further one at most `most`.
#[derive(Clone, Copy)]
pub struct FirstPass {
    pub device: DevId,
    pub skip: u64,
    pub most: u64,
    pub deadline: Option<Deadline>,
}

/// A pass over a mapped device by single sectors: to its last sector, or up to a deadline. With `no_scrape` it reads a run of
/// unread sectors only from its beginning to its first lost sector, and from its last lost sector to its end; and one that begins at
/// sector `turned`, where an earlier pass ended, only from its last lost sector to its end. There is none if that is 0.
#[derive(Clone, Copy)]
pub struct DevicePass {
    pub device: DevId,
    pub no_scrape: bool,
    pub turned: u64,
    pub deadline: Option<Deadline>,
}

// Returns whether a pass that goes on this way may end before sector `at`, and its time is up.
fn is_up<P: Progress>(deadline: Option<Deadline>, way: Way, at: u64, progress: &mut P) -> bool
    ensures { IsTrue result → MayEnd deadline way at }
{
    match deadline {
        None => false,
        Some(end) => {
            if at <= end.first && !is_backward(way) {
                return false;
            }
            progress.seconds() >= end.seconds
        }
    }
}

/// Returns the sector before which a pass over `sectors` sectors ends that has reached sector `at` and goes on this way.
pub(crate) fn pass_end<P: Progress>(
    deadline: Option<Deadline>,
    way: Way,
    at: u64,
    sectors: u64,
    progress: &mut P,
) -> u64
    requires { at ≤ sectors }
    ensures few { result ≤ sectors }
    ensures ends { result ≤ at → EndsAt deadline way at sectors }
{
    if is_up(deadline, way, at, progress) {
        return at;
    }
    sectors
}
