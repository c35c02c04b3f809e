//! The maps before and after a turn.
ghost use Rattle.std.specs.Prelude.{◌≡◌, ◌+◌, ◌≤◌, length, IfOk, OnErr};
ghost use Rattle.allocation.specs.Refusal.{IsOutOfMemory};
ghost use Rattle.rescue_map.specs.Maps.{marks};
ghost use Rattle.stack_recovery.specs.PassPieces.{IsWayInside};
ghost use Rattle.scan_commands.specs.Turns.{StepsBackwards, asked_marks, turned_by};

use crate::phase::{Phase, step_of};
use allocation::OutOfMemory;
use rescue_map::{Map, Span, Step, splice, stepped, untaken};
use stack_recovery::Way;
use std::alloc::Global;

/// Returns the map that a turn reads by: it has the sectors of the span that the pass reads, and all others count as read.
///
/// # Errors
///
/// `OutOfMemory` if the allocation of room for one run fails.
pub(crate) fn asked(
    alloc: Global,
    phase: Phase,
    map: &Map,
    span: Span,
    sectors: u64,
) -> Result<Map, OutOfMemory>
    requires map { length (marks map.now) ≡ sectors }
    requires inside { span.first + span.count ≤ sectors }
    ensures ok { IfOk result (λ asked. marks asked ≡ asked_marks phase span sectors map.now) }
    ensures err { OnErr result (IsOutOfMemory 1) }
{
    // The call provides the bound on a map's sectors.
    let _runs = map.runs();
    let all = Map::filled(alloc, sectors, true)?;
    let done = untaken(alloc, map, step_of(phase).takes)?;
    splice(alloc, &all, &done, span, sectors)
}

/// Returns the map after a step whose pass would go on this way. The sectors with the status that the step takes that the pass read
/// backwards are recovered too.
///
/// # Errors
///
/// `OutOfMemory` if the allocation of room for one run fails.
pub(crate) fn stepped_backwards(
    alloc: Global,
    map: Map,
    way: Way,
    sectors: u64,
    step: Step,
) -> Result<Map, OutOfMemory>
    requires map { length (marks map) ≡ sectors }
    requires inside { IsWayInside 0 way sectors }
    ensures ok { IfOk result (λ made. StepsBackwards step sectors way map made) }
    ensures sectors { IfOk result (λ made. length (marks made) ≡ sectors) }
    ensures err { OnErr result (IsOutOfMemory 1) }
{
    match way {
        Way::Backward { low, end } => {
            // The call provides the bound on a map's sectors.
            let _runs = map.runs();
            let all = Map::filled(alloc, sectors, true)?;
            let count = end - low;
            stepped(alloc, &map, &all, Span { first: low, count }, sectors, step)
        }
        _ => Ok(map),
    }
}

/// Returns the first sector of the run that a pass would go on to read backwards, from sector `at` on: 0 if it wouldn't.
pub(crate) fn turned_by(way: Way, at: u64) -> u64
    ensures { result ≡ turned_by way at }
{
    match way {
        Way::Forward => 0,
        _ => at,
    }
}
