//! Checking a planned configuration by all rules.
ghost use Rattle.std.specs.Prelude.{◌≡◌, ◌≤◌, ◌++◌, length, nat_lt, All, IsTrue};
ghost use Rattle.dm_table.specs.Names.{is_mapped_name};
ghost use Rattle.dm_table.specs.StackText.{IsStackOfGrammar};
ghost use Rattle.std.specs.List.{list_any};
ghost use Rattle.stack_rules.specs.Records.{configuration};
ghost use Rattle.stack_rules.specs.Kept.{AreLowers};
ghost use Rattle.stack_rules.specs.Passing.{IsPassed, above};
ghost use Rattle.stack_config.specs.Facts.{AreFacts};
ghost use Rattle.stack_loader.specs.Costs.{AreMeasured};
ghost use Rattle.stack_loader.specs.Next.{IsNext};
ghost use Rattle.stack_rules.specs.Descend.{most_devices};
ghost use Rattle.stack_rules.specs.Rules.{first, rules, load_rules, cycles, each_device, table_rules, depth_rules, is_too_many, most_leaves, most_lines};

use crate::cost::{Direction, MOST_COST, MOST_DEPTH, costs};
use crate::cycles::cycle_refusal;
use crate::depth::depths;
use crate::facts::device_facts;
use crate::lower_set::{MOST_DEVICES, lower_sets};
use crate::next::{copied_devices, duplicate, planned_devices};
use crate::resolve::lowers_of;
use crate::rules::lines_refusal;
use dm_table::Entry;
use stack_config::Facts;
use stack_rules::{DeviceLowers, Leaf, LoadFault, LoadKind, Mapped, Planned, Refusal};
use std::alloc::Global;

const MOST_LINES: usize = 256;

const TOO_MANY: Refusal = Refusal {
    kind: LoadKind::TooMany,
    device: 0,
    line: 0,
};

fn has_long_table(devices: &[Planned<'_>]) -> bool
    ensures { result ≡ list_any (λ d. nat_lt most_lines (length d.table)) devices.now }
{
    devices
        .iter()
        .any(|device| device.table().lines().len() > MOST_LINES)
}

fn is_too_many(devices: &[Planned<'_>]) -> bool
    ensures { result ≡ is_too_many devices.now }
{
    devices.len() > MOST_DEVICES as usize || has_long_table(devices)
}

/// Returns the refusal of the first device with a value above the limit, or `None` if there is no such device.
pub(crate) fn first_above(values: &[u64], most: u64, kind: LoadKind) -> Option<Refusal>
    requires { length values.now ≤ most_devices }
    ensures { result ≡ first (above kind most values.now) }
{
    for (i, value) in values.iter().enumerate() {
        if *value > most {
            return Some(Refusal {
                kind,
                device: i as u32 + 1,
                line: 0,
            });
        }
    }
    None
}

/// Returns the depths of the devices.
///
/// # Errors
///
/// - `Refused` by the first rule on cycles, lines and depths that refuses the configuration.
/// - `NoMemory` if an allocation fails.
fn checked_depths(
    alloc: Global,
    leaves: &[Leaf],
    devices: &[Planned<'_>],
    lowers: &[DeviceLowers],
) -> Result<Vec<u64>, LoadFault>
    requires few { length devices.now ≤ most_devices }
    requires lines { All (λ d. length d.table ≤ most_lines) devices.now }
    requires lowers { AreLowers (configuration leaves.now devices.now) lowers.now }
    ensures { let c = configuration leaves.now devices.now in IsPassed result (cycles c ++ each_device c (table_rules c) ++ depth_rules c) (λ depths. AreMeasured c lowers.now depths.items) }
{
    let named = lower_sets(alloc, lowers)?;
    let sets = named.as_slice();
    let cycle = cycle_refusal(alloc, sets)?;
    match cycle {
        Some(refusal) => return Err(LoadFault::Refused(refusal)),
        None => {}
    }
    match lines_refusal(leaves, devices, lowers) {
        Some(refusal) => return Err(LoadFault::Refused(refusal)),
        None => {}
    }
    let depths = depths(alloc, sets)?;
    match first_above(depths.as_slice(), MOST_DEPTH, LoadKind::TooDeep) {
        Some(refusal) => Err(LoadFault::Refused(refusal)),
        None => Ok(depths),
    }
}

/// Returns the values computed for a configuration.
///
/// # Errors
///
/// - `Refused` by the first rule that refuses the configuration.
/// - `NoMemory` if an allocation fails.
pub(crate) fn check(
    alloc: Global,
    leaves: &[Leaf],
    devices: &[Planned<'_>],
) -> Result<Facts, LoadFault>
    requires { length leaves.now ≤ most_leaves }
    ensures { let c = configuration leaves.now devices.now in IsPassed result (rules c) (AreFacts c) }
{
    if is_too_many(devices) {
        return Err(LoadFault::Refused(TOO_MANY));
    }
    let lowers = lowers_of(alloc, leaves, devices)?;
    let rows = lowers.as_slice();
    let depths = checked_depths(alloc, leaves, devices, rows)?;
    let levels = depths.as_slice();
    let read_costs = costs(alloc, Direction::Read, devices, rows, levels)?;
    let reads = read_costs.as_slice();
    match first_above(reads, MOST_COST, LoadKind::CostTooLarge) {
        Some(refusal) => return Err(LoadFault::Refused(refusal)),
        None => {}
    }
    let write_costs = costs(alloc, Direction::Write(reads), devices, rows, levels)?;
    let writes = write_costs.as_slice();
    let devices = device_facts(alloc, devices, levels, reads, writes, lowers)?;
    Ok(Facts { devices })
}

/// The devices after a load, and the values computed for them.
#[derive(Drop)]
pub(crate) struct Next {
    pub(crate) devices: Vec<Mapped>,
    pub(crate) facts: Facts,
}

/// Returns the devices after a load.
///
/// # Errors
///
/// - `Refused` by the first rule that refuses the load.
/// - `NoMemory` if an allocation fails.
pub(crate) fn next_load(
    alloc: Global,
    leaves: &[Leaf],
    devices: &[Mapped],
    entries: &[Entry],
) -> Result<Next, LoadFault>
    requires leaves { length leaves.now ≤ most_leaves }
    requires devices { length devices.now ≤ most_devices }
    requires names { All (λ d. IsTrue (is_mapped_name d.name)) devices.now }
    requires grammar { IsStackOfGrammar entries.now }
    ensures { let c = configuration leaves.now devices.now in IsPassed result (load_rules c entries.now) (IsNext c entries.now) }
{
    let refusal = duplicate(alloc, entries)?;
    match refusal {
        Some(refusal) => return Err(LoadFault::Refused(refusal)),
        None => {}
    }
    // Nothing is copied before all rules have been checked.
    let planned = planned_devices(alloc, devices, entries)?;
    let facts = check(alloc, leaves, planned.as_slice())?;
    let devices = copied_devices(alloc, planned.as_slice())?;
    Ok(Next { devices, facts })
}
