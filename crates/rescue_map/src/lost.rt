//! The sectors that a map doesn't have, as parts of the device.
ghost use Rattle.std.specs.Prelude.{◌≡◌, [], ◌++◌, ◌∷◌, IfErr, IfOk, OnOk};
ghost use Rattle.allocation.specs.Asked.{asked};
ghost use Rattle.rescue_map.specs.Lost.{lost_from, lost_of};

use crate::map::{Map, Run};
use allocation::{OutOfMemory, push};
use device_adapters::Part;
use std::alloc::Global;

// Appends the sectors of a run that begins at sector `at`, unless they were recovered.
fn push_lost(parts: &mut Vec<Part>, at: u64, run: Run) -> Result<(), OutOfMemory>
    ensures ok { OnOk result (parts.new.items ≡ parts.old.items ++ lost_of at run) }
    ensures err { IfErr result (λ e. asked e ≡ 1) }
{
    if run.had {
        return Ok(());
    }
    let first = at;
    let count = run.count;
    push(parts, Part { first, count })?;
    Ok(())
}

/// Returns the parts of the device whose sectors weren't recovered, one for each such run.
///
/// # Errors
///
/// `OutOfMemory` if the allocation of room for one part fails.
pub fn lost_parts(alloc: Global, map: &Map) -> Result<Vec<Part>, OutOfMemory>
    ensures ok { IfOk result (λ parts. parts.items ≡ lost_from 0 map.now) }
    ensures err { IfErr result (λ e. asked e ≡ 1) }
{
    let mut parts = Vec::new(alloc);
    let mut at = 0;
    for run in map.runs() {
        push_lost(&mut parts, at, *run)?;
        at += run.count;
    }
    Ok(parts)
}
