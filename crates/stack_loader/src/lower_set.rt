//! The devices that each device names.
ghost use Rattle.std.specs.Prelude.{◌≡◌, ◌<◌, ◌≤◌, ◌||◌, ℕ, length, IfOk, OnErr};
ghost use Rattle.allocation.specs.Refusal.{IsOutOfMemory};
ghost use Rattle.std.specs.List.{list_any};
ghost use Rattle.stack_rules.specs.Records.{Configuration};
ghost use Rattle.stack_rules.specs.Descend.{most_devices};
ghost use Rattle.stack_rules.specs.Cycles.{is_mapped, names_device};
ghost use Rattle.stack_loader.specs.DeviceSet.{contains, AreLowerSets};
ghost use Rattle.stack_rules.specs.Kept.{AreLowers};

use crate::device_set::DeviceSet;
use allocation::{OutOfMemory, push, with_capacity};
use stack_rules::{DeviceLowers, LineLowers, Lower};
use std::alloc::Global;

/// The largest number of mapped devices in a configuration.
pub const MOST_DEVICES: u32 = 64;

/// Returns the set with the lower device added, if it is a mapped device.
fn with_lower(set: DeviceSet, lower: Lower) -> DeviceSet
    ensures { (e : ℕ) → e < most_devices → contains result e ≡ (contains set e || is_mapped e lower) }
{
    match lower {
        Lower::Leaf(_) => set,
        Lower::Device(d) => {
            if d.0 < MOST_DEVICES {
                set.with(d.0 as usize)
            } else {
                set
            }
        }
    }
}

/// Returns the set with the devices that a line names added.
fn with_line(set: DeviceSet, lowers: &[Lower]) -> DeviceSet
    ensures { (e : ℕ) → e < most_devices → contains result e ≡ (contains set e || list_any (is_mapped e) lowers.now) }
{
    let mut named = set;
    for lower in lowers {
        named = with_lower(named, *lower);
    }
    named
}

/// Returns the devices that the lines name.
fn named_by(lines: &[LineLowers]) -> DeviceSet
    ensures { (e : ℕ) → e < most_devices → contains result e ≡ list_any (list_any (is_mapped e)) lines.now }
{
    let mut named = DeviceSet::empty();
    for line in lines {
        named = with_line(named, line.as_slice());
    }
    named
}

/// Returns the devices that each device names.
///
/// # Errors
///
/// `OutOfMemory` if an allocation of at most as many sets as there are devices fails.
pub fn lower_sets(alloc: Global, lowers: &[DeviceLowers]) -> Result<Vec<DeviceSet>, OutOfMemory>
    requires { length lowers.now ≤ most_devices }
    ensures ok { (c : Configuration) → AreLowers c lowers.now → IfOk result (λ sets. AreLowerSets c sets.items) }
    ensures err { OnErr result (IsOutOfMemory (length lowers.now)) }
{
    let mut sets = with_capacity(alloc, lowers.len())?;
    for device in lowers {
        push(&mut sets, named_by(device.lines()))?;
    }
    Ok(sets)
}
