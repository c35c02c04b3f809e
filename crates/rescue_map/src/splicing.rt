//! A map that is combined from two others.
ghost use Rattle.std.specs.Prelude.{◌≡◌, ◌+◌, ◌^◌, ◌≤◌, ◌++◌, length, take, drop, IfOk, MatchResult, OnErr, OnOk};
ghost use Rattle.allocation.specs.Asked.{asked};
ghost use Rattle.allocation.specs.Refusal.{IsOutOfMemory};
ghost use Rattle.rescue_map.specs.Aheads.{losts_ahead, marks_ahead};
ghost use Rattle.rescue_map.specs.Maps.{losts, marks, spliced_marks};

use crate::ahead::Ahead;
use crate::map::{Map, Run};
use allocation::OutOfMemory;
use std::alloc::Global;

/// `count` sectors from sector `first` on.
#[derive(Clone, Copy, Debug, PartialEq, Eq)]
pub struct Span {
    pub first: u64,
    pub count: u64,
}

/// Returns a map with the sectors of `span` from `within`, and all other sectors from `around`, a map of `sectors` sectors.
/// `within` may end after the span.
///
/// # Errors
///
/// `OutOfMemory` if the allocation of room for one run fails.
pub fn splice(
    alloc: Global,
    around: &Map,
    within: &Map,
    span: Span,
    sectors: u64,
) -> Result<Map, OutOfMemory>
    requires around { length (marks around.now) ≡ sectors }
    requires within { span.first + span.count ≤ length (marks within.now) }
    requires inside { span.first + span.count ≤ sectors }
    ensures marks { IfOk result (λ map. marks map ≡ spliced_marks span (marks around.now) (marks within.now)) }
    ensures lost { IfOk result (λ map. losts map ≡ spliced_marks span (losts around.now) (losts within.now)) }
    ensures sectors { IfOk result (λ map. length (marks map) ≡ sectors) }
    ensures err { OnErr result (IsOutOfMemory 1) }
{
    // This call gives the proof the largest size of a map.
    let _runs = around.runs();
    let mut map = Map::new(alloc);
    let mut outer = Ahead::of_map(around);
    let mut inner = Ahead::of_map(within);
    move_marks(&mut map, &mut outer, span.first)?;
    skip_marks(&mut inner, span.first);
    move_marks(&mut map, &mut inner, span.count)?;
    skip_marks(&mut outer, span.count);
    move_marks(&mut map, &mut outer, sectors - span.first - span.count)?;
    Ok(map)
}

// Moves the next `count` sectors to the map.
fn move_marks(map: &mut Map, ahead: &mut Ahead<'_>, count: u64) -> Result<(), OutOfMemory>
    requires enough { count ≤ length (marks_ahead ahead.old) }
    requires room { length (marks map.old) + count ≤ 2 ^ 54 }
    ensures moved { MatchResult result
        (λ _. marks map.new ≡ marks map.old ++ take count (marks_ahead ahead.old))
        (λ e. asked e ≡ 1) }
    ensures lost { OnOk result (losts map.new ≡ losts map.old ++ take count (losts_ahead ahead.old)) }
    ensures rest { OnOk result (marks_ahead ahead.new ≡ drop count (marks_ahead ahead.old)) }
    ensures lost_rest { OnOk result (losts_ahead ahead.new ≡ drop count (losts_ahead ahead.old)) }
{
    let mut left = count;
    'runs: while left > 0 {
        let run = ahead.next_run();
        let count = run.count.min(left);
        map.push(Run {
            count,
            had: run.had,
            lost: run.lost,
            stage: run.stage,
        })?;
        ahead.pass(count);
        left -= count;
    }
    Ok(())
}

// Skips the next `count` sectors.
fn skip_marks(ahead: &mut Ahead<'_>, count: u64)
    requires { count ≤ length (marks_ahead ahead.old) }
    ensures rest { marks_ahead ahead.new ≡ drop count (marks_ahead ahead.old) }
    ensures lost_rest { losts_ahead ahead.new ≡ drop count (losts_ahead ahead.old) }
{
    let mut left = count;
    'runs: while left > 0 {
        let run = ahead.next_run();
        let count = run.count.min(left);
        ahead.pass(count);
        left -= count;
    }
}
