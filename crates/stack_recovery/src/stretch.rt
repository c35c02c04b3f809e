//! The next sectors of a map that have one mark.
ghost use Rattle.std.specs.Prelude.{◌≡◌, ◌≤◌, ◌^◌, length};
ghost use Rattle.rescue_map.specs.Aheads.{marks_ahead};
ghost use Rattle.rescue_map.specs.Maps.{marks};
ghost use Rattle.stack_recovery.specs.Stretches.{BeginsOtherwise, extends, is_same_mark};

use rescue_map::{Ahead, Run};

// Returns whether two marks are the same.
fn is_same_mark(a: bool, b: bool) -> bool
    ensures { result ≡ is_same_mark a b }
{
    if a { b } else { !b }
}

// Returns whether the first of the runs after a run has the same mark, or no sector.
fn extends(run: Run, rest: &[Run]) -> bool
    ensures { result ≡ extends run rest.now }
{
    match rest.first() {
        None => false,
        Some(next) => next.count == 0 || is_same_mark(next.had, run.had),
    }
}

/// Returns the longest run of next sectors of which all were recovered, or none. At least one sector must remain.
pub(crate) fn next_stretch(ahead: &mut Ahead<'_>) -> Run
    requires some { 1 ≤ length (marks_ahead ahead.old) }
    requires few { length (marks_ahead ahead.old) ≤ 2 ^ 54 }
    ensures same { marks_ahead ahead.new ≡ marks_ahead ahead.old }
    ensures first { result ≡ ahead.new.first }
    ensures some { 1 ≤ result.count }
    ensures longest { BeginsOtherwise result.had (marks ahead.new.rest.now) }
{
    ahead.next_run();
    'runs: while extends(ahead.first, ahead.rest) {
        ahead.first.count += ahead.rest[0].count;
        ahead.rest = &ahead.rest[1..];
    }
    ahead.first
}
