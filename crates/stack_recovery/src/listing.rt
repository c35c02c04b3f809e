//! Receivers of lost runs: a writer, or a list in memory.
ghost use Rattle.std.specs.Prelude.{◌≡◌, ◌≤◌, [], ◌∷◌, None};
ghost use Rattle.allocation.specs.Asked.{refused_size};
ghost use Rattle.stack_recovery.specs.Listings.{Listed, Tells};

use crate::lost_run::{LostRun, say_run};
use allocation::{OutOfMemory, push};
use program_io::Counted;
use std::alloc::Global;
use std::io::Write;

/// Receives lost runs, in order. After a run that couldn't be reported no further run is; the recovery goes on.
pub trait Listing {
    /// The text of the reported runs, a line each, or the runs, and whether a run couldn't be reported.
    ghost told: { Self → Listed };

    /// Reports a run, unless an earlier run couldn't be reported.
    fn tell(&mut self, run: LostRun)
        ensures { Tells (told self.old) (told self.new) (run ∷ []) };
}

impl<W: Write> Listing for Counted<W> {
    ghost use Rattle.stack_recovery.specs.Listings.{listed};

    ghost told = { λ writer. listed (W.contents writer.inner) writer.failed };

    #[tactic(auto, using(crate::proofs::lemmas::WritingLemmas::one_run_text))]
    fn tell(&mut self, run: LostRun) {
        if !self.failed() {
            let _remembered = say_run(self, run);
        }
    }
}

/// Runs in memory, and the allocation that failed if a run couldn't be kept: it is of room for one run.
#[derive(Drop)]
pub struct KeptRuns {
    pub runs: Vec<LostRun>,
    pub refused: Option<OutOfMemory>,
    pub ghost few: { refused_size refused ≤ 1 },
}

impl KeptRuns {
    /// Returns an empty list.
    pub fn new(alloc: Global) -> KeptRuns
        ensures runs { result.runs.items ≡ [] }
        ensures refused { result.refused ≡ None }
    {
        KeptRuns {
            runs: Vec::new(alloc),
            refused: None,
        }
    }
}

impl Listing for KeptRuns {
    ghost use Rattle.std.specs.Prelude.{is_some};
    ghost use Rattle.stack_recovery.specs.Listings.{kept_runs};

    ghost told = { λ kept. kept_runs kept.runs.items (is_some kept.refused) };

    #[tactic(auto, using(crate::proofs::lemmas::WritingLemmas::runs_text_last))]
    fn tell(&mut self, run: LostRun) {
        if self.refused.is_some() {
            return;
        }
        match push(&mut self.runs, run) {
            Ok(()) => {}
            Err(refused) => self.refused = Some(refused),
        }
    }
}

/// Reports nothing.
#[derive(Drop)]
pub struct NoListing;

impl Listing for NoListing {
    ghost use Rattle.std.specs.Prelude.{None, true};
    ghost use Rattle.stack_recovery.specs.Listings.{listed};

    ghost told = { λ _. listed None true };

    fn tell(&mut self, _run: LostRun) {}
}
