//! Which sectors of a device were recovered, and which were found bad.
ghost use Rattle.std.specs.Prelude.{◌≡◌, ◌+◌, ◌^◌, ◌≤◌, [], ◌∷◌, ◌++◌, false, length, replicate, if◌then◌else◌, IfOk, IsTrue, MatchResult, OnOk};
ghost use Rattle.allocation.specs.Asked.{asked};
ghost use Rattle.rescue_map.specs.declared.status.Status.TheVariants.{Recovered, Untried};
ghost use Rattle.rescue_map.specs.Maps.{AreRuns, losts, marks};
ghost use Rattle.rescue_map.specs.Stages.{run_status, statuses};

use crate::stage::Stage;
use allocation::{OutOfMemory, push};
use std::alloc::Global;
use std::marker::Model;

/// A run of sectors: they were recovered (`had`), a read found them bad (`lost`), or they remain to be read, and were tried as far
/// as their stage.
#[derive(Clone, Copy, Debug, PartialEq, Eq)]
pub struct Run {
    pub count: u64,
    pub had: bool,
    pub lost: bool,
    pub stage: Stage,
}

/// Which sectors were recovered or found bad, as non-empty runs from the first sector on.
#[derive(Drop)]
pub struct Map {
    runs: Vec<Run>,
    ghost whole: { AreRuns runs.items },
}

// Returns whether two stages are the same.
fn is_same_stage(a: Stage, b: Stage) -> bool
    ensures { IsTrue result → a ≡ b }
{
    match (a, b) {
        (Stage::Untried, Stage::Untried) => true,
        (Stage::Untrimmed, Stage::Untrimmed) => true,
        (Stage::Unscraped, Stage::Unscraped) => true,
        _ => false,
    }
}

// Returns whether the sectors of two runs are in the same state.
fn is_alike(a: Run, b: Run) -> bool
    ensures had { IsTrue result → a.had ≡ b.had }
    ensures lost { IsTrue result → a.lost ≡ b.lost }
    ensures stage { IsTrue result → a.stage ≡ b.stage }
{
    a.had == b.had && a.lost == b.lost && is_same_stage(a.stage, b.stage)
}

impl Model for Map {
    ghost use Rattle.std.specs.Prelude.{List};
    ghost use Rattle.rescue_map.specs.declared.map.Run.{Run};
    ghost use Rattle.rescue_map.specs.Maps.{AreRuns};

    ghost Value = { List Run };

    ghost view = { λ m. m.runs.items };
}

impl Map {
    /// Returns the map of no sectors.
    pub fn new(alloc: Global) -> Map
        ensures { result ≡ [] }
    {
        Map {
            runs: Vec::new(alloc),
        }
    }

    /// Returns a map of `count` sectors that all were recovered, or all remain to be read.
    ///
    /// # Errors
    ///
    /// `OutOfMemory` if the allocation of room for one run fails.
    pub fn filled(alloc: Global, count: u64, had: bool) -> Result<Map, OutOfMemory>
        requires { count ≤ 2 ^ 54 }
        ensures marks { MatchResult result
            (λ map. marks map ≡ replicate count had)
            (λ e. asked e ≡ 1) }
        ensures lost { IfOk result (λ map. losts map ≡ replicate count false) }
        ensures status { IfOk result (λ map. statuses map ≡ replicate count (if had then Recovered else Untried)) }
    {
        let mut map = Map::new(alloc);
        if count > 0 {
            map.push(Run {
                count,
                had,
                lost: false,
                stage: Stage::Untried,
            })?;
        }
        Ok(map)
    }

    /// Returns the runs, from the first sector on.
    pub fn runs(&self) -> &[Run]
        ensures value { result.now ≡ self.now }
        ensures whole { AreRuns self.now }
    {
        self.runs.as_slice()
    }

    // Appends a run without joining it to the last one.
    pub(crate) fn add(&mut self, run: Run) -> Result<(), OutOfMemory>
        requires some { 1 ≤ run.count }
        requires room { length (marks self.old) + run.count ≤ 2 ^ 54 }
        ensures { MatchResult result
            (λ _. self.new ≡ self.old ++ run ∷ [])
            (λ e. (self.new ≡ self.old) × (asked e ≡ 1)) }
    {
        push(&mut self.runs, run)?;
        Ok(())
    }

    /// Appends sectors.
    ///
    /// # Errors
    ///
    /// `OutOfMemory` if the allocation of room for one run fails; the map is unchanged.
    pub fn push(&mut self, run: Run) -> Result<(), OutOfMemory>
        requires some { 1 ≤ run.count }
        requires room { length (marks self.old) + run.count ≤ 2 ^ 54 }
        ensures marks { MatchResult result
            (λ _. marks self.new ≡ marks self.old ++ replicate run.count run.had)
            (λ e. (self.new ≡ self.old) × (asked e ≡ 1)) }
        ensures lost { OnOk result (losts self.new ≡ losts self.old ++ replicate run.count run.lost) }
        ensures status { OnOk result (statuses self.new ≡ statuses self.old ++ replicate run.count (run_status run)) }
    {
        let end = self.runs.len();
        if end > 0 && is_alike(self.runs[end - 1], run) {
            self.runs[end - 1].count += run.count;
            return Ok(());
        }
        push(&mut self.runs, run)?;
        Ok(())
    }
}
