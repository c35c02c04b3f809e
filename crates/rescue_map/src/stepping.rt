//! A step of a rescue, which reads the sectors of one status.
ghost use Rattle.std.specs.Prelude.{◌≡◌, ◌+◌, ◌≤◌, length, IfOk, OnErr};
ghost use Rattle.allocation.specs.Refusal.{IsOutOfMemory};
ghost use Rattle.rescue_map.specs.Maps.{marks};
ghost use Rattle.rescue_map.specs.Stages.{statuses};
ghost use Rattle.rescue_map.specs.Steps.{AreAlike, is_inside, status_after, step_status, stepped_statuses, untaken_marks};

use crate::ahead::Ahead;
use crate::map::{Map, Run};
use crate::splicing::{Span, splice};
use crate::stage::{Stage, run_of, run_status};
use crate::status::{Status, is_same};
use allocation::OutOfMemory;
use std::alloc::Global;

/// The status of the sectors that a step reads, and the status that it gives those that it finds bad, and those that it leaves.
#[derive(Clone, Copy, Debug, PartialEq, Eq)]
pub struct Step {
    pub takes: Status,
    pub failed: Status,
    pub left: Status,
}

/// Returns a map that marks as recovered the sectors of any other status than that one.
///
/// # Errors
///
/// `OutOfMemory` if the allocation of room for one run fails.
pub fn untaken(alloc: Global, map: &Map, takes: Status) -> Result<Map, OutOfMemory>
    ensures ok { IfOk result (λ made. marks made ≡ untaken_marks takes map.now) }
    ensures sectors { IfOk result (λ made. length (marks made) ≡ length (marks map.now)) }
    ensures err { OnErr result (IsOutOfMemory 1) }
{
    let mut made = Map::new(alloc);
    for run in map.runs() {
        made.push(Run {
            count: run.count,
            had: !is_same(run_status(*run), takes),
            lost: false,
            stage: Stage::Untried,
        })?;
    }
    Ok(made)
}

// Returns whether a sector is inside a span.
fn is_inside(span: Span, at: u64) -> bool
    ensures { result ≡ is_inside span at }
{
    span.first <= at && at - span.first < span.count
}

// Returns how many of the next `count` sectors are all inside a span, or all outside.
fn alike(span: Span, at: u64, count: u64) -> u64
    requires { 1 ≤ count }
    ensures some { 1 ≤ result }
    ensures few { result ≤ count }
    ensures alike { AreAlike span at result }
{
    if at < span.first {
        return count.min(span.first - at);
    }
    let past = at - span.first;
    if past < span.count {
        return count.min(span.count - past);
    }
    count
}

// Returns the status of a sector after a step that read it (`had`) or found it bad (`lost`).
fn step_status(step: Step, before: Status, had: bool, lost: bool) -> Status
    ensures { result ≡ step_status step before had lost }
{
    if !is_same(before, step.takes) {
        return before;
    }
    if had {
        return Status::Recovered;
    }
    if lost { step.failed } else { step.left }
}

// Returns the status of the sectors of a run after a step, which read them if they are inside its span.
fn status_after(step: Step, inside: bool, before: Status, made: Run) -> Status
    ensures { result ≡ status_after step inside before made.had made.lost }
{
    if inside {
        step_status(step, before, made.had, made.lost)
    } else {
        before
    }
}

/// Returns the map after a step over the sectors of `span`, which made a map of them: of the sectors with the status that the step
/// takes, those that it read are recovered, those that it found bad have failed, and the others are left. All others are as before.
///
/// # Errors
///
/// `OutOfMemory` if the allocation of room for one run fails.
pub fn stepped(
    alloc: Global,
    before: &Map,
    made: &Map,
    span: Span,
    sectors: u64,
    step: Step,
) -> Result<Map, OutOfMemory>
    requires before { length (marks before.now) ≡ sectors }
    requires within { span.first + span.count ≤ length (marks made.now) }
    requires inside { span.first + span.count ≤ sectors }
    ensures ok { IfOk result (λ map. statuses map ≡ stepped_statuses step span before.now made.now) }
    ensures sectors { IfOk result (λ map. length (marks map) ≡ sectors) }
    ensures err { OnErr result (IsOutOfMemory 1) }
{
    // This call gives the proof the largest size of a map.
    let _sizes = before.runs();
    let all = splice(alloc, before, made, span, sectors)?;
    let mut map = Map::new(alloc);
    let mut old = Ahead::of_map(before);
    let mut new = Ahead::of_map(&all);
    let mut at = 0;
    'runs: while at < sectors {
        let was = old.next_run();
        let is = new.next_run();
        let count = alike(span, at, was.count.min(is.count));
        let inside = is_inside(span, at);
        let after = status_after(step, inside, run_status(was), is);
        map.push(run_of(count, after))?;
        old.pass(count);
        new.pass(count);
        at += count;
    }
    Ok(map)
}
