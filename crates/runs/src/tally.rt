//! The run that may still grow during a scan of blocks.
ghost use Rattle.std.specs.Prelude.{◌≡◌, ◌+◌, ◌<◌, ◌^◌, None, Some, OnOk};
ghost use Rattle.runs.specs.Limits.{begun, limit_after, limited_lines};
ghost use Rattle.runs.specs.Listings.{Tells};
ghost use Rattle.runs.specs.Tallies.{EndsAt, closed_by, joined_run, listed, opened_by};
ghost use Rattle.runs.specs.Kinds.{is_same};

use crate::kind::Kind;
use crate::limit::Limit;
use crate::listing::Listing;
use crate::run::Run;
use program_io::WriteFault;

/// The run that may still grow, and the limit on the lines printed.
#[derive(Clone, Copy, Debug, PartialEq, Eq)]
pub struct Tally {
    pub last: Option<Run<Kind>>,
    pub limit: Limit,
}

/// Returns both runs joined, if they have the same kind.
fn joined(last: Option<Run<Kind>>, run: Run<Kind>) -> Option<Run<Kind>>
    requires ends { EndsAt last run.first }
    requires room { run.first + run.count < 2 ^ 64 }
    ensures { result ≡ joined_run is_same last run }
{
    let last = last?;
    if last.kind.is_same(run.kind) {
        Some(last.longer(run.count))
    } else {
        None
    }
}

impl Tally {
    /// Returns a tally of no blocks. At most `most` lines are printed, or all for `None`.
    pub fn new(most: Option<u64>) -> Tally
        ensures { result ≡ record { last = None; limit = begun most } }
    {
        Tally {
            last: None,
            limit: Limit::new(most),
        }
    }

    /// Reports the run that may still grow: it is complete.
    ///
    /// # Errors
    ///
    /// `WriteFault` if the run can't be reported.
    #[tactic(auto, using(crate::proofs::WritingLemmas::writes_nothing))]
    pub fn close<L: Listing>(&mut self, listing: &mut L) -> Result<(), WriteFault>
        ensures text { Tells L.told L.failed listing.old listing.new (limited_lines self.old.limit (listed self.old.last)) result }
        ensures last { OnOk result (self.new.last ≡ None) }
        ensures limit { OnOk result (self.new.limit ≡ limit_after self.old.limit (listed self.old.last)) }
    {
        match self.last {
            None => Ok(()),
            Some(run) => {
                self.limit.say(listing, run)?;
                self.last = None;
                Ok(())
            }
        }
    }

    /// Adds a run that begins at the end of the blocks so far. The previous run is reported if it can no longer grow.
    ///
    /// # Errors
    ///
    /// `WriteFault` if the previous run can't be reported.
    #[tactic(auto, using(crate::proofs::WritingLemmas::writes_nothing))]
    pub fn add<L: Listing>(&mut self, listing: &mut L, run: Run<Kind>) -> Result<(), WriteFault>
        requires ends { EndsAt self.old.last run.first }
        requires room { run.first + run.count < 2 ^ 64 }
        ensures text { Tells L.told L.failed listing.old listing.new (limited_lines self.old.limit (closed_by is_same self.old.last run)) result }
        ensures last { OnOk result (self.new.last ≡ Some (opened_by is_same self.old.last run)) }
        ensures limit { OnOk result (self.new.limit ≡ limit_after self.old.limit (closed_by is_same self.old.last run)) }
    {
        match joined(self.last, run) {
            Some(both) => self.last = Some(both),
            None => {
                self.close(listing)?;
                self.last = Some(run);
            }
        }
        Ok(())
    }
}
