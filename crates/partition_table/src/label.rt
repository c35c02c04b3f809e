//! The label of a partition, as text.
ghost use Rattle.std.specs.Prelude.{◌≡◌, ◌+◌, ◌≤◌, ◌==◌, map, length, IfOk, IfErr, string_bytes};
ghost use Rattle.allocation.specs.Asked.{asked};
ghost use Rattle.partition_table.specs.Labels.{before_zero, label_text, label_units, name_room, number16, shown_unit};

use crate::characters::lossy_text;
use allocation::{OutOfMemory, push};
use std::alloc::Global;

const REPLACEMENT: u16 = 0xfffd;

/// Returns the characters of a label up to its first zero. An unpaired surrogate and a control character become
/// U+FFFD.
///
/// # Errors
///
/// `OutOfMemory` if the allocator refused room for a unit or a character.
pub fn label_text(alloc: Global, label: &[u8; 72]) -> Result<String, OutOfMemory>
    ensures ok { IfOk result (λ s. string_bytes s ≡ label_text label.now) }
    ensures err { IfErr result (λ e. asked e ≤ name_room) }
{
    let units = label_units(alloc, label)?;
    let shown = shown_units(alloc, &units)?;
    lossy_text(alloc, &shown)
}

// The units of the label, with its first zero and those after it.
fn label_units(alloc: Global, label: &[u8; 72]) -> Result<Vec<u16>, OutOfMemory>
    ensures ok { IfOk result (λ v. v.items ≡ label_units label.now) }
    ensures err { IfErr result (λ e. asked e ≤ name_room) }
{
    let mut units = Vec::new(alloc);
    for index in 0..36_usize {
        push(&mut units, number16(label, 2 * index))?;
    }
    Ok(units)
}

// The units before the first zero, as they are shown.
fn shown_units(alloc: Global, units: &[u16]) -> Result<Vec<u16>, OutOfMemory>
    ensures ok { IfOk result (λ v. v.items ≡ map shown_unit (before_zero units.now)) }
    ensures err { IfErr result (λ e. asked e ≤ name_room) }
{
    let mut shown = Vec::new(alloc);
    for unit in units {
        if is_end(*unit) {
            return Ok(shown);
        }
        push(&mut shown, shown_unit(*unit))?;
    }
    Ok(shown)
}

fn is_end(unit: u16) -> bool
    ensures { result ≡ (unit == 0) }
{
    unit == 0
}

fn shown_unit(unit: u16) -> u16
    ensures { result ≡ shown_unit unit }
{
    if unit < 32 || unit >= 127 && unit < 160 {
        REPLACEMENT
    } else {
        unit
    }
}

fn number16(bytes: &[u8], at: usize) -> u16
    requires { at + 2 ≤ length bytes.now }
    ensures { result ≡ number16 bytes.now at }
{
    let mut number = [0; 2];
    number.copy_from_slice(&bytes[at..at + 2]);
    u16::from_le_bytes(number)
}
