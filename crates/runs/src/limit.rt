//! The limit on the number of lines printed.
ghost use Rattle.std.specs.Prelude.{◌≡◌, OnOk};
ghost use Rattle.runs.specs.Limits.{limited_line, begun, limit_next};
ghost use Rattle.runs.specs.Listings.{Tells};

use crate::kind::Kind;
use crate::line::Line;
use crate::listing::Listing;
use crate::run::Run;
use program_io::WriteFault;

/// The number of lines that may still be printed, or `None` for no limit, and whether `more` was printed.
#[derive(Clone, Copy, Debug, PartialEq, Eq)]
pub struct Limit {
    pub left: Option<u64>,
    pub told: bool,
}

impl Limit {
    /// Returns a limit of at most `most` lines, or no limit for `None`.
    pub fn new(most: Option<u64>) -> Limit
        ensures { result ≡ begun most }
    {
        Limit {
            left: most,
            told: false,
        }
    }

    /// Reports the line of a run, or `more`, once, if no lines are left.
    #[tactic(auto, using(crate::proofs::WritingLemmas::writes_nothing))]
    pub(crate) fn say<L: Listing>(
        &mut self,
        listing: &mut L,
        run: Run<Kind>,
    ) -> Result<(), WriteFault>
        ensures text { Tells L.told L.failed listing.old listing.new (limited_line self.old run) result }
        ensures next { OnOk result (self.new ≡ limit_next self.old) }
    {
        match self.left {
            None => listing.tell(Line::Run(run)),
            Some(0) => {
                if !self.told {
                    listing.tell(Line::More)?;
                    self.told = true;
                }
                Ok(())
            }
            Some(left) => {
                listing.tell(Line::Run(run))?;
                self.left = Some(left - 1);
                Ok(())
            }
        }
    }
}
