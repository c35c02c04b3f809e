//! The sectors of a map that remain to be processed.
ghost use Rattle.std.specs.Prelude.{◌≡◌, ◌≤◌, ◌++◌, [], replicate, false, length};
ghost use Rattle.rescue_map.specs.Aheads.{losts_ahead, marks_ahead, statuses_ahead};
ghost use Rattle.rescue_map.specs.Maps.{losts, marks};
ghost use Rattle.rescue_map.specs.Stages.{run_status, statuses};

use crate::map::{Map, Run};
use crate::stage::Stage;

/// The remaining sectors: the rest of a run, and the runs after it.
#[derive(Drop)]
pub struct Ahead<'a> {
    pub first: Run,
    pub rest: &'a [Run],
}

impl<'a> Ahead<'a> {
    /// Returns all sectors of a map.
    pub fn of_map(map: &'a Map) -> Ahead<'a>
        ensures marks { marks_ahead result ≡ marks map.now }
        ensures lost { losts_ahead result ≡ losts map.now }
        ensures status { statuses_ahead result ≡ statuses map.now }
    {
        Ahead {
            first: Run {
                count: 0,
                had: false,
                lost: false,
                stage: Stage::Untried,
            },
            rest: map.runs(),
        }
    }

    /// Returns `count` sectors that remain to be read.
    pub fn unread(count: u64) -> Ahead<'a>
        ensures marks { marks_ahead result ≡ replicate count false }
        ensures single { result.rest.now ≡ [] }
    {
        Ahead {
            first: Run {
                count,
                had: false,
                lost: false,
                stage: Stage::Untried,
            },
            rest: &[],
        }
    }

    /// Returns the run of the next sectors. At least one sector must remain. If no run is after the current one, it is that one.
    pub fn next_run(&mut self) -> Run
        requires { 1 ≤ length (marks_ahead self.old) }
        ensures same { marks_ahead self.new ≡ marks_ahead self.old }
        ensures lost { losts_ahead self.new ≡ losts_ahead self.old }
        ensures status { statuses_ahead self.new ≡ statuses_ahead self.old }
        ensures first { result ≡ self.new.first }
        ensures some { 1 ≤ result.count }
        ensures single { self.old.rest.now ≡ [] → self.new.rest.now ≡ [] }
    {
        'runs: while self.first.count == 0 {
            self.first = self.rest[0];
            self.rest = &self.rest[1..];
        }
        self.first
    }

    /// Removes the first `count` sectors of the current run.
    pub fn pass(&mut self, count: u64)
        requires { count ≤ self.old.first.count }
        ensures marks { marks_ahead self.old ≡ replicate count self.old.first.had ++ marks_ahead self.new }
        ensures lost { losts_ahead self.old ≡ replicate count self.old.first.lost ++ losts_ahead self.new }
        ensures status { statuses_ahead self.old ≡ replicate count (run_status self.old.first) ++ statuses_ahead self.new }
        ensures rest { self.new.rest.now ≡ self.old.rest.now }
    {
        self.first.count -= count;
    }
}
