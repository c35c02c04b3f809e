//! Depths of all devices.
ghost use Rattle.std.specs.Prelude.{◌≡◌, ◌<◌, ◌≤◌, ◌+◌, ℕ, length, slice_index, IfOk, OnErr};
ghost use Rattle.allocation.specs.Refusal.{IsOutOfMemory};
ghost use Rattle.stack_rules.specs.Descend.{most_devices};
ghost use Rattle.stack_loader.specs.Depths.{greatest_in, depth_round, depth_rounds};

use crate::device_set::DeviceSet;
use crate::lower_set::MOST_DEVICES;
use allocation::{OutOfMemory, filled, push, with_capacity};
use std::alloc::Global;

/// Returns the largest of the values of the devices in the set.
fn greatest_in(set: DeviceSet, values: &[u64]) -> u64
    requires { length values.now ≤ most_devices }
    ensures { result ≡ greatest_in set values.now }
{
    let mut greatest = 0;
    for (d, value) in values.iter().enumerate() {
        if set.contains(d) {
            greatest = greatest.max(*value);
        }
    }
    greatest
}

/// Returns the values after one round: one more than the largest value of the devices that each device names.
fn round(alloc: Global, sets: &[DeviceSet], values: &[u64]) -> Result<Vec<u64>, OutOfMemory>
    requires few { length values.now ≤ most_devices }
    requires low { (k : ℕ) → slice_index values.now k ≤ most_devices }
    ensures ok { IfOk result (λ v. v.items ≡ depth_round sets.now values.now) }
    ensures err { OnErr result (IsOutOfMemory (length sets.now)) }
{
    let mut next = with_capacity(alloc, sets.len())?;
    for set in sets {
        push(&mut next, 1 + greatest_in(*set, values))?;
    }
    Ok(next)
}

/// Returns the depths after 64 rounds. It stops earlier if a round changes nothing.
///
/// # Errors
///
/// `OutOfMemory` if an allocation of at most as many numbers as there are sets fails.
pub fn depths(alloc: Global, sets: &[DeviceSet]) -> Result<Vec<u64>, OutOfMemory>
    requires { length sets.now ≤ most_devices }
    ensures ok { IfOk result (λ v. v.items ≡ depth_rounds sets.now most_devices) }
    ensures err { OnErr result (IsOutOfMemory (length sets.now)) }
{
    let mut values = filled(alloc, sets.len(), 1)?;
    for _round in 0..MOST_DEVICES {
        let next = round(alloc, sets, values.as_slice())?;
        if next.as_slice() == values.as_slice() {
            return Ok(next);
        }
        values = next;
    }
    Ok(values)
}
