//! The sectors of a map that a pass doesn't read.
ghost use Rattle.std.specs.Prelude.{◌≡◌, length, IfOk, OnErr};
ghost use Rattle.allocation.specs.Refusal.{IsOutOfMemory};
ghost use Rattle.rescue_map.specs.Maps.{is_settled, losts, marks, no_losts, settled_marks};

use crate::map::{Map, Run};
use crate::stage::Stage;
use allocation::OutOfMemory;
use std::alloc::Global;

// Returns whether the sectors of a run were recovered, or are bad and not read again.
fn is_settled(run: Run, again: bool) -> bool
    ensures { result ≡ is_settled again run }
{
    run.had || (run.lost && !again)
}

/// Returns a map that marks as recovered the sectors that were recovered and, unless they are read again (`again`), the bad
/// ones. None is bad in it.
///
/// # Errors
///
/// `OutOfMemory` if the allocation of room for one run fails.
pub fn settled(alloc: Global, map: &Map, again: bool) -> Result<Map, OutOfMemory>
    ensures ok { IfOk result (λ made. marks made ≡ settled_marks again map.now) }
    ensures sectors { IfOk result (λ made. length (marks made) ≡ length (marks map.now)) }
    ensures lost { IfOk result (λ made. losts made ≡ no_losts map.now) }
    ensures err { OnErr result (IsOutOfMemory 1) }
{
    let mut made = Map::new(alloc);
    for run in map.runs() {
        made.push(Run {
            count: run.count,
            had: is_settled(*run, again),
            lost: false,
            stage: Stage::Untried,
        })?;
    }
    Ok(made)
}
