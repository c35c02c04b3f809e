//! The numbers of recovered and other sectors of a map.
ghost use Rattle.std.specs.Prelude.{◌≡◌, ◌+◌, ◌<◌, ◌^◌, length};
ghost use Rattle.std.specs.List.{list_all};
ghost use Rattle.rescue_map.specs.Maps.{map_totals, marks, with_run};
ghost use Rattle.rescue_map.specs.Stages.{is_complete, remains};

use crate::map::{Map, Run};
use crate::stage::run_status;
use crate::status::Status;

/// The numbers of sectors that were recovered, of bad ones, and of those that remain to be read.
#[derive(Clone, Copy, Debug, PartialEq, Eq)]
pub struct Totals {
    pub had: u64,
    pub bad: u64,
    pub left: u64,
}

/// Returns whether all sectors of a map were recovered.
pub fn is_had(map: &Map) -> bool
    ensures { result ≡ list_all (λ run. run.had) map.now }
{
    map.runs().iter().all(|run| run.had)
}

// Returns whether sectors of a status remain to be read, by a pass that may leave unscraped ones.
fn remains(no_scrape: bool, status: Status) -> bool
    ensures { result ≡ remains no_scrape status }
{
    match status {
        Status::Untried => true,
        Status::Untrimmed => true,
        Status::Unscraped => !no_scrape,
        Status::Bad => false,
        Status::Recovered => false,
    }
}

/// Returns whether no sector of a map remains to be read, by a pass that may leave unscraped ones.
pub(crate) fn is_complete(map: &Map, no_scrape: bool) -> bool
    ensures { result ≡ is_complete no_scrape map.now }
{
    map.runs()
        .iter()
        .all(|run| !remains(no_scrape, run_status(*run)))
}

fn with_run(totals: Totals, run: Run) -> Totals
    requires { totals.had + totals.bad + totals.left + run.count < 2 ^ 64 }
    ensures { result ≡ with_run totals run }
{
    let mut totals = totals;
    if run.had {
        totals.had += run.count;
    } else if run.lost {
        totals.bad += run.count;
    } else {
        totals.left += run.count;
    }
    totals
}

/// Returns the numbers of sectors of a map that were recovered, of bad ones, and of those that remain to be read.
pub fn totals_of(map: &Map) -> Totals
    ensures { result ≡ map_totals map.now }
{
    let mut totals = Totals {
        had: 0,
        bad: 0,
        left: 0,
    };
    for run in map.runs() {
        totals = with_run(totals, *run);
    }
    totals
}

/// Returns the number of sectors of a map.
pub fn sectors_of(map: &Map) -> u64
    ensures { result ≡ length (marks map.now) }
{
    let mut at = 0;
    for run in map.runs() {
        at += run.count;
    }
    at
}
