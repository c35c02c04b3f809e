//! The lost runs that a pass found, among the bad sectors that it left, with those that an earlier pass found.
ghost use Rattle.std.specs.Prelude.{◌≡◌, ◌+◌, ◌<◌, ◌≤◌, ◌^◌, nat_lt, None};
ghost use Rattle.rescue_map.specs.Stages.{run_status, statuses};
ghost use Rattle.runs.specs.Runs.{runs_of};
ghost use Rattle.runs.specs.Tallies.{EndsAt};
ghost use Rattle.stack_recovery.specs.Joins.{AreSameFrom, EndsAfter, HaveJoined, HaveState, closed_with, joined_states, loss_before, opened_with, or_before};
ghost use Rattle.stack_recovery.specs.Listings.{Tells};
ghost use Rattle.stack_recovery.specs.LostRuns.{is_same_loss};

use crate::listing::Listing;
use crate::lost_run::{Loss, LostRun};
use crate::tally::Tally;
use rescue_map::{Ahead, Map, Run, Status, run_status, sectors_of};
use stack_engine::IoFault;

/// The number of sectors that are lost alike, or of which none is lost.
#[derive(Clone, Copy)]
struct Alike {
    count: u64,
    loss: Option<Loss>,
}

// Returns whether a run ends after a sector.
fn ends_after(run: LostRun, at: u64) -> bool
    ensures { result ≡ nat_lt at (run.first + run.count) }
{
    at < run.first || at - run.first < run.count
}

// Returns the runs without the first ones that end before sector `at`.
fn from_sector(found: &[LostRun], at: u64) -> &[LostRun]
    ensures same { AreSameFrom at found.now result.now }
    ensures ends { EndsAfter at result.now }
{
    let mut rest = found;
    'runs: while !rest.is_empty() && !ends_after(rest[0], at) {
        rest = &rest[1..];
    }
    rest
}

// Returns how many of the next `count` sectors from sector `at` on are in one run or in none, and their loss.
fn alike_in(runs: &[LostRun], at: u64, count: u64) -> Alike
    requires some { 1 ≤ count }
    requires ends { EndsAfter at runs.now }
    ensures some { 1 ≤ result.count }
    ensures few { result.count ≤ count }
    ensures state { HaveState runs.now at result.count result.loss }
{
    if runs.is_empty() {
        return Alike { count, loss: None };
    }
    let next = runs[0];
    if at < next.first {
        return Alike {
            count: count.min(next.first - at),
            loss: None,
        };
    }
    Alike {
        count: count.min(next.count - (at - next.first)),
        loss: Some(next.kind),
    }
}

// Returns why sectors of a status weren't recovered: as an earlier pass found, or by the fault of binding 0.
fn loss_before(status: Status, before: Option<Loss>) -> Loss
    ensures { result ≡ loss_before status before }
{
    match before {
        None => match status {
            Status::Bad => Loss::Lost(IoFault::Device(0)),
            _ => Loss::Unscraped(IoFault::Device(0)),
        },
        Some(loss) => loss,
    }
}

// Returns the loss of sectors of a status by what an earlier pass and the last one found of them, which may be none.
fn or_before(status: Status, before: Option<Loss>, found: Option<Loss>) -> Option<Loss>
    ensures { result ≡ or_before status before found }
{
    match found {
        None => match status {
            Status::Recovered => None,
            _ => Some(loss_before(status, before)),
        },
        Some(loss) => Some(loss),
    }
}

// Returns how many of the next sectors, a run of a map from sector `at` on, are alike, by the runs that two passes found among them.
fn alike_at(run: Run, before: &[LostRun], rest: &[LostRun], at: u64) -> Alike
    requires some { 1 ≤ run.count }
    requires earlier { EndsAfter at before.now }
    requires ends { EndsAfter at rest.now }
    ensures some { 1 ≤ result.count }
    ensures few { result.count ≤ run.count }
    ensures state { HaveJoined (run_status run) before.now rest.now at result.count result.loss }
{
    let found = alike_in(rest, at, run.count);
    let known = alike_in(before, at, found.count);
    Alike {
        count: known.count,
        loss: or_before(run_status(run), known.loss, found.loss),
    }
}

// Adds sectors to a tally that ends before them.
fn add<L: Listing>(tally: &mut Tally, listing: &mut L, at: u64, alike: Alike)
    requires ends { EndsAt tally.old.last at }
    requires lost { tally.old.lost + tally.old.untried ≤ at }
    requires room { at + alike.count < 2 ^ 64 }
    ensures told { Tells (L.told listing.old) (L.told listing.new) (closed_with tally.old.last at alike.count alike.loss) }
    ensures last { tally.new.last ≡ opened_with tally.old.last at alike.count alike.loss }
    ensures lost { tally.new.lost + tally.new.untried ≤ at + alike.count }
{
    match alike.loss {
        Some(kind) => {
            let run = LostRun {
                first: at,
                count: alike.count,
                kind,
            };
            tally.lose(listing, run);
        }
        None => tally.close(listing),
    }
}

/// Reports the longest runs of sectors that are lost by one fault, in rising order: those among the runs `found` by a pass, and the other
/// sectors that its map doesn't mark as recovered, which the pass didn't read. Their loss is the one that an `earlier` pass found, or that
/// of binding 0, since a map has none.
pub fn tell_among_bad<L: Listing>(
    listing: &mut L,
    map: &Map,
    earlier: &[LostRun],
    found: &[LostRun],
)
    ensures { Tells (L.told listing.old) (L.told listing.new) (runs_of is_same_loss 0 (joined_states 0 (statuses map.now) earlier.now found.now)) }
{
    // The call provides the bound on a map's sectors.
    let _runs = map.runs();
    let sectors = sectors_of(map);
    let mut tally = Tally::new();
    let mut ahead = Ahead::of_map(map);
    let mut before = earlier;
    let mut rest = found;
    let mut at = 0;
    'sectors: while at < sectors {
        let run = ahead.next_run();
        before = from_sector(before, at);
        rest = from_sector(rest, at);
        let alike = alike_at(run, before, rest, at);
        add(&mut tally, listing, at, alike);
        ahead.pass(alike.count);
        at += alike.count;
    }
    tally.close(listing);
}
