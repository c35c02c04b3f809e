//! The devices after a load.
ghost use Rattle.std.specs.Prelude.{◌≡◌, ◌≤◌, ◌++◌, [], is_none, map, filter, find, position, option_copied, ◌+◌, length, All, IsTrue, IfOk, IfErr};
ghost use Rattle.allocation.specs.Asked.{WasRefused, asked};
ghost use Rattle.dm_table.specs.Names.{is_mapped_name};
ghost use Rattle.std.specs.Str.{bytes_eq};
ghost use Rattle.stack_rules.specs.Descend.{most_devices};
ghost use Rattle.stack_rules.specs.Passing.{largest_load_allocation};
ghost use Rattle.stack_rules.specs.Rules.{replacement, new_device, first, duplicate_names, most_lines};

use allocation::{OutOfMemory, insert, push, with_capacity};
use dm_table::Entry;
use stack_rules::{LoadKind, Mapped, Planned, Refusal, place_of};
use std::alloc::Global;
use std::collections::HashMap;

/// Returns the refusal of the first entry with the name of an earlier one, or `None` if all names are distinct.
pub(crate) fn duplicate(alloc: Global, entries: &[Entry]) -> Result<Option<Refusal>, OutOfMemory>
    ensures ok { IfOk result (λ refusal. refusal ≡ first (duplicate_names [] entries.now)) }
    ensures err { IfErr result (WasRefused 1) }
{
    let mut names: HashMap<&[u8], ()> = HashMap::new(alloc);
    for entry in entries {
        let earlier = insert(&mut names, entry.name.as_slice(), ())?;
        if earlier.is_some() {
            return Ok(Some(Refusal {
                kind: LoadKind::DuplicateName,
                device: entry.number,
                line: 0,
            }));
        }
    }
    Ok(None)
}

/// Returns the first entry with this name.
fn entry_of<'a>(entries: &'a [Entry], name: &[u8]) -> Option<&'a Entry>
    ensures { option_copied result ≡ find (λ e. bytes_eq e.name name.now) entries.now }
{
    entries.iter().find(|entry| entry.name.as_slice() == name)
}

/// Returns the device with the table and flag of the entry that has its name, if there is one.
fn replacement<'a>(entries: &'a [Entry], device: &'a Mapped) -> Planned<'a>
    ensures { result ≡ replacement entries.now device.now }
{
    match entry_of(entries, device.name()) {
        Some(entry) => Planned::new(device.name(), entry.writable, &entry.table),
        None => Planned::new(device.name(), device.writable(), device.table()),
    }
}

/// Returns the existing devices in order, replaced if an entry has their name, followed by the new ones in the order
/// of the text.
pub(crate) fn planned_devices<'a>(
    alloc: Global,
    devices: &'a [Mapped],
    entries: &'a [Entry],
) -> Result<Vec<Planned<'a>>, OutOfMemory>
    ensures ok { IfOk result (λ next. next.items ≡ map (replacement entries.now) devices.now ++ map new_device (filter (λ e. is_none (position (λ d. bytes_eq d.name e.name) devices.now)) entries.now)) }
    ensures err { IfErr result (λ e. asked e ≤ length devices.now + 1) }
{
    let mut next = with_capacity(alloc, devices.len())?;
    for device in devices {
        push(&mut next, replacement(entries, device))?;
    }
    for entry in entries {
        if place_of(devices, entry.name.as_slice()).is_none() {
            push(
                &mut next,
                Planned::new(entry.name.as_slice(), entry.writable, &entry.table),
            )?;
        }
    }
    Ok(next)
}

/// Returns copies of the devices that own their names and tables.
pub(crate) fn copied_devices(
    alloc: Global,
    planned: &[Planned<'_>],
) -> Result<Vec<Mapped>, OutOfMemory>
    requires few { length planned.now ≤ most_devices }
    requires names { All (λ d. IsTrue (is_mapped_name d.name)) planned.now }
    requires lines { All (λ d. length d.table ≤ most_lines) planned.now }
    ensures ok { IfOk result (λ devices. devices.items ≡ planned.now) }
    ensures err { IfErr result (λ e. asked e ≤ largest_load_allocation) }
{
    let mut devices = with_capacity(alloc, planned.len())?;
    for device in planned {
        let copy = Mapped::new(alloc, device.name(), device.writable(), device.table())?;
        push(&mut devices, copy)?;
    }
    Ok(devices)
}
