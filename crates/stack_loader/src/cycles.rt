//! Devices on a cycle.
ghost use Rattle.std.specs.Prelude.{◌≡◌, ◌<◌, ◌≤◌, ◌+◌, ◌&&◌, ◌||◌, ℕ, Bool, zero, length, IfOk, OnErr};
ghost use Rattle.allocation.specs.Refusal.{IsOutOfMemory};
ghost use Rattle.stack_rules.specs.Records.{Configuration};
ghost use Rattle.stack_rules.specs.Descend.{most_devices};
ghost use Rattle.stack_rules.specs.Cycles.{leads_below};
ghost use Rattle.stack_loader.specs.DeviceSet.{contains, set_at, AreSets, AreLowerSets};
ghost use Rattle.stack_rules.specs.Rules.{first, cycles};

use crate::device_set::DeviceSet;
use allocation::{OutOfMemory, copied};
use stack_rules::{LoadKind, Refusal};
use std::alloc::Global;

/// Adds the set of device `k` to each set that contains `k`.
fn join(sets: &mut [DeviceSet], k: usize)
    requires place { k < length sets.old }
    requires few { length sets.old ≤ most_devices }
    ensures { (d e : ℕ) → d < length sets.old → contains (set_at sets.new d) e ≡ (contains (set_at sets.old d) e || (contains (set_at sets.old d) k && contains (set_at sets.old k) e)) }
{
    let through = sets[k];
    for set in sets.iter_mut() {
        if set.contains(k) {
            *set = set.union(through);
        }
    }
}

/// Replaces the set of devices that each device names by the set of devices to which a chain of lines leads from it.
fn close(sets: &mut [DeviceSet])
    requires { length sets.old ≤ most_devices }
    ensures { (test : ℕ → ℕ → Bool) → AreSets test sets.old → AreSets (leads_below test (length sets.old)) sets.new }
{
    for k in 0..sets.len() {
        join(sets, k);
    }
}

/// Returns the refusal of the first device on a cycle, or `None` if there is no cycle.
///
/// # Errors
///
/// `OutOfMemory` if an allocation of at most as many sets as there are devices fails.
pub fn cycle_refusal(alloc: Global, sets: &[DeviceSet]) -> Result<Option<Refusal>, OutOfMemory>
    requires { length sets.now ≤ most_devices }
    ensures ok { (c : Configuration) → AreLowerSets c sets.now → IfOk result (λ refusal. refusal ≡ first (cycles c)) }
    ensures err { OnErr result (IsOutOfMemory (length sets.now)) }
{
    let mut closed = copied(alloc, sets)?;
    close(closed.as_mut_slice());
    for (d, set) in closed.iter().enumerate() {
        if set.contains(d) {
            return Ok(Some(Refusal {
                kind: LoadKind::StandsOnItself,
                device: d as u32 + 1,
                line: 0,
            }));
        }
    }
    Ok(None)
}
