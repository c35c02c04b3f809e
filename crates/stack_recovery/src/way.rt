//! The way that a pass by single sectors goes on.
ghost use Rattle.std.specs.Prelude.{◌≡◌, ◌||◌};
ghost use Rattle.stack_recovery.specs.PassPieces.{way_lost, way_probed, way_trimmed};
ghost use Rattle.stack_recovery.specs.Recoveries.{scanned_by};
ghost use Rattle.stack_recovery.specs.Ways.{is_backward, is_copied, is_forward, low_of, way_past};

use crate::deadline::DevicePass;

/// The way that a pass goes on from the sector to which it has come.
#[derive(Clone, Copy, Debug, PartialEq, Eq)]
pub enum Way {
    /// It reads the next sectors.
    Forward,
    /// It reads the run that begins there backwards, from its end.
    Turned,
    /// It reads that run backwards: from `low` up to `end`, the end of the run, the sectors were read and copied.
    Backward { low: u64, end: u64 },
}

/// Returns whether the pass reads the next sectors.
pub(crate) fn is_forward(way: Way) -> bool
    ensures { result ≡ is_forward way }
{
    match way {
        Way::Forward => true,
        _ => false,
    }
}

/// Returns whether the pass has read some sectors of a run backwards.
pub(crate) fn is_backward(way: Way) -> bool
    ensures { result ≡ is_backward way }
{
    match way {
        Way::Backward { .. } => true,
        _ => false,
    }
}

/// Returns whether the run from sector `at` on was read already: before the pass (`had`), or backwards by it.
pub(crate) fn is_past(had: bool, way: Way, at: u64) -> bool
    ensures { result ≡ (had || is_copied way at) }
{
    match way {
        Way::Backward { low, .. } => had || low == at,
        _ => had,
    }
}

/// Returns the sector before which the next piece of a run ends that is read backwards. The run ends before sector `end`.
pub(crate) fn low_of(way: Way, end: u64) -> u64
    ensures { result ≡ low_of way end }
{
    match way {
        Way::Backward { low, .. } => low,
        _ => end,
    }
}

/// Returns the way after the sectors from `first` on and before `next` were read backwards.
pub(crate) fn way_probed(way: Way, first: u64, next: u64) -> Way
    ensures { result ≡ way_probed way first next }
{
    match way {
        Way::Backward { end, .. } => Way::Backward { low: first, end },
        _ => Way::Backward {
            low: first,
            end: next,
        },
    }
}

/// Returns the way after the last lost sectors of a run.
pub(crate) fn way_trimmed(way: Way) -> Way
    ensures { result ≡ way_trimmed way }
{
    match way {
        Way::Backward { low, end } => Way::Backward { low, end },
        _ => Way::Forward,
    }
}

/// Returns the way after a lost sector.
pub(crate) fn way_lost(no_scrape: bool) -> Way
    ensures { result ≡ way_lost no_scrape }
{
    if no_scrape { Way::Turned } else { Way::Forward }
}

/// Returns the way after the sectors before sector `at`, which were read before the pass, or backwards by it.
pub(crate) fn way_past(pass: DevicePass, way: Way, at: u64) -> Way
    ensures { result ≡ way_past (scanned_by pass) way at }
{
    match way {
        Way::Backward { .. } => Way::Forward,
        _ => {
            if at == pass.turned {
                way_lost(pass.no_scrape)
            } else {
                Way::Forward
            }
        }
    }
}
