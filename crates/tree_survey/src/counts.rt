//! Runs and counts of data blocks, updated block by block.
ghost use Rattle.std.specs.Prelude.{◌≡◌, ◌^◌, ◌<◌, OnOk};
ghost use Rattle.runs.specs.Limits.{limit_after};
ghost use Rattle.runs.specs.Listings.{Tells};
ghost use Rattle.runs.specs.Tallies.{EndsAt};
ghost use Rattle.tree_survey.specs.Counts.{AreFew, IsAdded, closed_at, counted, lines_at, none_yet, opened_at};

use program_io::WriteFault;
use runs::{Kind, Listing, Run, Tally};

/// How many data blocks are valid, how many changed, and of how many nothing is known.
#[derive(Clone, Copy, Debug, PartialEq, Eq)]
pub struct Totals {
    pub good: u64,
    pub changed: u64,
    pub unknown: u64,
}

/// The open run, which may still grow, and the counts so far.
#[derive(Clone, Copy)]
pub(crate) struct Counts {
    pub(crate) tally: Tally,
    pub(crate) totals: Totals,
}

impl Counts {
    /// Returns the counts of no blocks.
    pub(crate) fn new() -> Counts
        ensures { result ≡ none_yet }
    {
        Counts {
            tally: Tally::new(None),
            totals: Totals {
                good: 0,
                changed: 0,
                unknown: 0,
            },
        }
    }

    /// Adds the next data block, and reports the run that it ends.
    pub(crate) fn add<L: Listing>(
        &mut self,
        listing: &mut L,
        index: u64,
        state: Option<Kind>,
    ) -> Result<(), WriteFault>
        requires ends { EndsAt self.old.tally.last index }
        requires inside { index < 2 ^ 54 }
        requires few { AreFew self.old.totals }
        ensures text { Tells L.told L.failed listing.old listing.new (lines_at self.old.tally index state) result }
        ensures added { OnOk result (IsAdded self.old self.new index state) }
    {
        tally_next(&mut self.tally, listing, index, state)?;
        self.totals = counted(self.totals, state);
        Ok(())
    }
}

fn tally_next<L: Listing>(
    tally: &mut Tally,
    listing: &mut L,
    index: u64,
    state: Option<Kind>,
) -> Result<(), WriteFault>
    requires ends { EndsAt tally.old.last index }
    requires inside { index < 2 ^ 54 }
    ensures text { Tells L.told L.failed listing.old listing.new (lines_at tally.old index state) result }
    ensures last { OnOk result (tally.new.last ≡ opened_at tally.old.last index state) }
    ensures limit { OnOk result (tally.new.limit ≡ limit_after tally.old.limit (closed_at tally.old.last index state)) }
{
    match state {
        None => tally.close(listing),
        Some(kind) => tally.add(
            listing,
            Run {
                first: index,
                count: 1,
                kind,
            },
        ),
    }
}

fn counted(totals: Totals, state: Option<Kind>) -> Totals
    requires { AreFew totals }
    ensures { result ≡ counted totals state }
{
    let Totals {
        good,
        changed,
        unknown,
    } = totals;
    match state {
        None => Totals {
            good: good + 1,
            changed,
            unknown,
        },
        Some(Kind::Changed) => Totals {
            good,
            changed: changed + 1,
            unknown,
        },
        Some(Kind::Unknown) => Totals {
            good,
            changed,
            unknown: unknown + 1,
        },
        Some(_) => totals,
    }
}
