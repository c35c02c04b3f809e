//! The passes over a device.
ghost use Rattle.std.specs.Prelude.{◌≡◌};
ghost use Rattle.scan_commands.specs.PassesInTurns.{phase_after};
ghost use Rattle.scan_commands.specs.Turns.{is_trim, large_step, most_skipped, step_of};

use rescue_map::{Status, Step};
use stack_recovery::most_skip;

/// A pass over a device. Each reads the sectors of one status of a map.
#[derive(Clone, Copy, Debug, PartialEq, Eq)]
pub enum Phase {
    /// The first pass, in large pieces, which skips ahead after failed reads.
    Skim,
    /// The second pass, which reads each piece that the first one didn't try.
    Sweep,
    /// The third pass, which reads each run of failed pieces from both edges.
    Trim,
    /// The fourth pass, which reads the sectors between the edges.
    Scrape,
    /// A later pass, which reads bad sectors again.
    Retry,
}

/// Returns the phase of the pass after the one that trims and `passes` further ones. A pass that doesn't scrape trims again instead, and
/// has nothing to read.
pub(crate) fn phase_after(no_scrape: bool, passes: u64) -> Phase
    ensures { result ≡ phase_after no_scrape passes }
{
    if passes == 0 {
        if no_scrape {
            Phase::Trim
        } else {
            Phase::Scrape
        }
    } else {
        Phase::Retry
    }
}

/// Returns the status of the sectors that a pass reads, and those that it gives them.
pub(crate) fn step_of(phase: Phase) -> Step
    ensures { result ≡ step_of phase }
{
    match phase {
        Phase::Skim => large_step(),
        Phase::Sweep => large_step(),
        Phase::Trim => Step {
            takes: Status::Untrimmed,
            failed: Status::Bad,
            left: Status::Unscraped,
        },
        Phase::Scrape => Step {
            takes: Status::Unscraped,
            failed: Status::Bad,
            left: Status::Unscraped,
        },
        Phase::Retry => Step {
            takes: Status::Bad,
            failed: Status::Bad,
            left: Status::Bad,
        },
    }
}

// The step of a pass in large pieces.
fn large_step() -> Step
    ensures { result ≡ large_step }
{
    Step {
        takes: Status::Untried,
        failed: Status::Untrimmed,
        left: Status::Untried,
    }
}

/// Returns whether a pass reads runs from both edges only.
pub(crate) fn is_trim(phase: Phase) -> bool
    ensures { result ≡ is_trim phase }
{
    match phase {
        Phase::Trim => true,
        _ => false,
    }
}

/// Returns the most sectors that a pass over so many sectors skips after a failed read.
pub(crate) fn most_skipped(phase: Phase, sectors: u64) -> u64
    ensures { result ≡ most_skipped phase sectors }
{
    match phase {
        Phase::Skim => most_skip(sectors),
        _ => 0,
    }
}
