//! How far sectors that remain to be read were tried, and the status of a run.
ghost use Rattle.std.specs.Prelude.{◌≡◌};
ghost use Rattle.rescue_map.specs.Stages.{run_of, run_status, stage_of, stage_status};

use crate::map::Run;
use crate::status::{Status, is_bad, is_recovered};

/// How far sectors that remain to be read were tried.
#[derive(Clone, Copy, Debug, PartialEq, Eq)]
pub enum Stage {
    /// `?`: no read of them failed.
    Untried,
    /// `*`: in a failed read of several sectors, and not trimmed.
    Untrimmed,
    /// `/`: between the edges of a trimmed run, and not scraped.
    Unscraped,
}

// Returns how far sectors of a status were tried, if they remain to be read.
fn stage_of(status: Status) -> Stage
    ensures { result ≡ stage_of status }
{
    match status {
        Status::Untrimmed => Stage::Untrimmed,
        Status::Unscraped => Stage::Unscraped,
        _ => Stage::Untried,
    }
}

// Returns the status of sectors that remain to be read.
fn stage_status(stage: Stage) -> Status
    ensures { result ≡ stage_status stage }
{
    match stage {
        Stage::Untried => Status::Untried,
        Stage::Untrimmed => Status::Untrimmed,
        Stage::Unscraped => Status::Unscraped,
    }
}

/// Returns the run of so many sectors of a status.
pub(crate) fn run_of(count: u64, status: Status) -> Run
    ensures { result ≡ run_of count status }
{
    Run {
        count,
        had: is_recovered(status),
        lost: is_bad(status),
        stage: stage_of(status),
    }
}

/// Returns the status of the sectors of a run.
pub fn run_status(run: Run) -> Status
    ensures { result ≡ run_status run }
{
    if run.had {
        return Status::Recovered;
    }
    if run.lost {
        return Status::Bad;
    }
    stage_status(run.stage)
}
