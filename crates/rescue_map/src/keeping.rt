//! The bad sectors of a map after a pass.
ghost use Rattle.std.specs.Prelude.{◌≡◌, ◌||◌, length, IfOk, OnErr};
ghost use Rattle.allocation.specs.Refusal.{IsOutOfMemory};
ghost use Rattle.rescue_map.specs.Maps.{found_lost, joined, kept_had, kept_lost, left_lost, losts, marks};

use crate::ahead::Ahead;
use crate::map::{Map, Run};
use crate::stage::Stage;
use allocation::OutOfMemory;
use std::alloc::Global;

// Returns whether a bad sector stays bad: always, or until it was recovered if bad ones are read again.
fn kept_lost(again: bool, lost: bool, had: bool) -> bool
    ensures { result ≡ kept_lost again lost had }
{
    lost && !(again && had)
}

// Returns whether a sector counts as recovered.
fn kept_had(again: bool, lost: bool, had: bool) -> bool
    ensures { result ≡ kept_had again lost had }
{
    had && !kept_lost(again, lost, had)
}

// Returns whether a sector is bad after a pass: it stays bad, or the pass found it bad and didn't recover it.
fn is_bad(again: bool, before: bool, after: Run) -> bool
    ensures { result ≡ (kept_lost again before after.had || found_lost after.lost after.had) }
{
    kept_lost(again, before, after.had) || (after.lost && !after.had)
}

/// Returns the map `after` a pass over all sectors, in which the bad sectors of the map `before` are bad too. If these were read
/// `again`, those that were recovered aren't.
///
/// # Errors
///
/// `OutOfMemory` if the allocation of room for one run fails.
pub fn keep_lost(
    alloc: Global,
    before: &Map,
    after: &Map,
    sectors: u64,
    again: bool,
) -> Result<Map, OutOfMemory>
    requires before { length (marks before.now) ≡ sectors }
    requires after { length (marks after.now) ≡ sectors }
    ensures marks { IfOk result (λ map. marks map ≡ joined (kept_had again) (losts before.now) (marks after.now)) }
    ensures lost { IfOk result (λ map. losts map ≡ left_lost again (losts before.now) (marks after.now) (losts after.now)) }
    ensures sectors { IfOk result (λ map. length (marks map) ≡ sectors) }
    ensures err { OnErr result (IsOutOfMemory 1) }
{
    // This call gives the proof the largest size of a map.
    let _sizes = before.runs();
    let mut map = Map::new(alloc);
    let mut old = Ahead::of_map(before);
    let mut new = Ahead::of_map(after);
    let mut left = sectors;
    'runs: while left > 0 {
        let lost = old.next_run();
        let had = new.next_run();
        let count = lost.count.min(had.count);
        map.push(Run {
            count,
            had: kept_had(again, lost.lost, had.had),
            lost: is_bad(again, lost.lost, had),
            stage: Stage::Untried,
        })?;
        old.pass(count);
        new.pass(count);
        left -= count;
    }
    Ok(map)
}
