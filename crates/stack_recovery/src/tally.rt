//! The lost sectors of a recovery so far.
ghost use Rattle.std.specs.Prelude.{◌≡◌, ◌+◌, ◌-◌, ◌<◌, ◌≤◌, ◌^◌, None, Some};
ghost use Rattle.stack_recovery.specs.Listings.{Tells};
ghost use Rattle.runs.specs.Tallies.{EndsAt, closed_by, joined_run, listed, opened_by};
ghost use Rattle.stack_recovery.specs.LostRuns.{is_same_loss, lost_count, untried_count};

use crate::listing::Listing;
use crate::lost_run::{LostRun, is_same_loss, lost_count, untried_count};
use crate::recovery::Counts;

/// The open run, which may still grow, and how many sectors are lost and unscraped.
#[derive(Clone, Copy)]
pub(crate) struct Tally {
    pub(crate) last: Option<LostRun>,
    pub(crate) lost: u64,
    pub(crate) untried: u64,
}

/// Joins two adjacent runs into one if their losses are the same.
fn joined(last: Option<LostRun>, run: LostRun) -> Option<LostRun>
    requires ends { EndsAt last run.first }
    requires room { run.first + run.count < 2 ^ 64 }
    ensures { result ≡ joined_run is_same_loss last run }
{
    let last = last?;
    if is_same_loss(last.kind, run.kind) {
        Some(last.longer(run.count))
    } else {
        None
    }
}

impl Tally {
    pub(crate) fn new() -> Tally
        ensures { result ≡ record { last = None; lost = 0; untried = 0 } }
    {
        Tally {
            last: None,
            lost: 0,
            untried: 0,
        }
    }

    /// Reports the open run, and closes it.
    #[tactic(auto, using(crate::proofs::lemmas::WritingLemmas::tells_nothing))]
    pub(crate) fn close<L: Listing>(&mut self, listing: &mut L)
        ensures text { Tells (L.told listing.old) (L.told listing.new) (listed self.old.last) }
        ensures last { self.new.last ≡ None }
        ensures lost { (self.new.lost ≡ self.old.lost) × (self.new.untried ≡ self.old.untried) }
    {
        if let Some(run) = self.last {
            listing.tell(run);
            self.last = None;
        }
    }

    /// Adds a run that begins where the sectors so far end.
    #[tactic(auto, using(crate::proofs::lemmas::WritingLemmas::tells_nothing))]
    pub(crate) fn lose<L: Listing>(&mut self, listing: &mut L, run: LostRun)
        requires ends { EndsAt self.old.last run.first }
        requires lost { self.old.lost + self.old.untried ≤ run.first }
        requires room { run.first + run.count < 2 ^ 64 }
        ensures text { Tells (L.told listing.old) (L.told listing.new) (closed_by is_same_loss self.old.last run) }
        ensures last { self.new.last ≡ Some (opened_by is_same_loss self.old.last run) }
        ensures lost { self.new.lost ≡ self.old.lost + lost_count run.kind run.count }
        ensures untried { self.new.untried ≡ self.old.untried + untried_count run.kind run.count }
    {
        match joined(self.last, run) {
            Some(both) => self.last = Some(both),
            None => {
                self.close(listing);
                self.last = Some(run);
            }
        }
        self.lost += lost_count(run.kind, run.count);
        self.untried += untried_count(run.kind, run.count);
    }

    /// Reports the open run, and returns the counts of the `sectors` sectors so far.
    pub(crate) fn finish<L: Listing>(&mut self, listing: &mut L, sectors: u64) -> Counts
        requires { self.old.lost + self.old.untried ≤ sectors }
        ensures text { Tells (L.told listing.old) (L.told listing.new) (listed self.old.last) }
        ensures value { result ≡ record { read = sectors - (self.old.lost + self.old.untried); lost = self.old.lost; untried = self.old.untried } }
    {
        self.close(listing);
        Counts {
            read: sectors - (self.lost + self.untried),
            lost: self.lost,
            untried: self.untried,
        }
    }
}
