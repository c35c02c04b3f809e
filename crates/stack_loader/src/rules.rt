//! The rules on each line.
ghost use Rattle.std.specs.Prelude.{◌≡◌, ◌≤◌, ◌∷◌, [], not, ℕ, option_map, length, All};
ghost use Rattle.std.specs.List.{list_any};
ghost use Rattle.dm_table.specs.Grammar.{IsTargetOfGrammar};
ghost use Rattle.stack_rules.specs.Records.{configuration};
ghost use Rattle.stack_rules.specs.Names.{may_write, names};
ghost use Rattle.stack_rules.specs.Descend.{most_devices};
ghost use Rattle.stack_rules.specs.Kept.{AreLowers};
ghost use Rattle.stack_rules.specs.Passing.{Mean, RowsMean, refusal_at};
ghost use Rattle.stack_rules.specs.declared.refusal.LoadKind.TheVariants as kinds;
ghost use Rattle.stack_rules.specs.Rules.{first, refuse, line_rules, needs_read_only, each_device, table_rules, most_lines};

use crate::leaves::MOST_SECTORS;
use crate::ranges::{is_beyond, is_tree_beyond, is_uncovered, is_unprotected};
use crate::units::part_fault;
use dm_table::Line;
use stack_rules::{DeviceLowers, Leaf, LineLowers, LoadKind, Lower, Planned, Refusal, verity_of};

fn may_write(leaves: &[Leaf], devices: &[Planned<'_>], lower: Lower) -> bool
    ensures { result ≡ may_write (configuration leaves.now devices.now) lower }
{
    match lower {
        Lower::Leaf(i) => match leaves.get(i as usize) {
            Some(leaf) => leaf.writable(),
            None => false,
        },
        Lower::Device(d) => match devices.get(d.0 as usize) {
            Some(device) => device.writable(),
            None => false,
        },
    }
}

fn needs_read_only(line: &Line) -> bool
    ensures { result ≡ needs_read_only line.now.length line.now.target }
{
    verity_of(&line.target).is_some()
}

/// Returns whether one of the lower devices is read-only.
fn has_read_only(leaves: &[Leaf], devices: &[Planned<'_>], lowers: &[Lower]) -> bool
    ensures { result ≡ list_any (λ lower. not (may_write (configuration leaves.now devices.now) lower)) lowers.now }
{
    lowers
        .iter()
        .any(|lower| !may_write(leaves, devices, *lower))
}

/// Returns the first rule that forbids a line in a writable device.
fn write_fault(
    leaves: &[Leaf],
    devices: &[Planned<'_>],
    lowers: &[Lower],
    line: &Line,
) -> Option<LoadKind>
    ensures { (d l : ℕ) → option_map (refusal_at d l) result ≡ first (refuse kinds.NeedsReadOnly d l (needs_read_only line.now.length line.now.target) ∷ refuse kinds.LowerReadOnly d l (list_any (λ lower. not (may_write (configuration leaves.now devices.now) lower)) lowers.now) ∷ []) }
{
    if needs_read_only(line) {
        return Some(LoadKind::NeedsReadOnly);
    }
    if has_read_only(leaves, devices, lowers) {
        return Some(LoadKind::LowerReadOnly);
    }
    None
}

/// Returns the first rule that refuses a line. `before` is the number of sectors in the lines before it.
fn line_fault(
    leaves: &[Leaf],
    devices: &[Planned<'_>],
    writable: bool,
    before: u128,
    lowers: &[Lower],
    line: &Line,
) -> Option<LoadKind>
    requires grammar { IsTargetOfGrammar line.now.target }
    requires lowers { Mean (configuration leaves.now devices.now) lowers.now (names line.now.target) }
    ensures { (d l : ℕ) → option_map (refusal_at d l) result ≡ first (line_rules (configuration leaves.now devices.now) writable d l before line.now) }
{
    if line.length == 0 {
        return Some(LoadKind::ZeroLength);
    }
    if u128::from(line.start) != before {
        return Some(LoadKind::Gap);
    }
    if u128::from(line.start) + u128::from(line.length) > u128::from(MOST_SECTORS) {
        return Some(LoadKind::TooLarge);
    }
    match part_fault(line) {
        Some(kind) => return Some(kind),
        None => {}
    }
    if is_unprotected(line) {
        return Some(LoadKind::ParityDoesntCover);
    }
    if is_beyond(leaves, devices, lowers, line) {
        return Some(LoadKind::BeyondDevice);
    }
    if is_uncovered(line) {
        return Some(LoadKind::LineBeyondTree);
    }
    if is_tree_beyond(leaves, devices, lowers, &line.target) {
        return Some(LoadKind::TreeBeyondDevice);
    }
    if !writable {
        return None;
    }
    write_fault(leaves, devices, lowers, line)
}

/// Returns the first refusal of a line of device `d`, which is numbered from 1.
fn table_refusal(
    leaves: &[Leaf],
    devices: &[Planned<'_>],
    device: &Planned<'_>,
    rows: &[LineLowers],
    d: u32,
) -> Option<Refusal>
    requires lines { length device.now.table ≤ most_lines }
    requires rows { RowsMean (configuration leaves.now devices.now) rows.now device.now.table }
    ensures { result ≡ first (table_rules (configuration leaves.now devices.now) d device.now) }
{
    let lines = device.table().lines();
    let writable = device.writable();
    let mut before: u128 = 0;
    for (i, line) in lines.iter().enumerate() {
        let lowers = rows[i].as_slice();
        match line_fault(leaves, devices, writable, before, lowers, line) {
            Some(kind) => {
                return Some(Refusal {
                    kind,
                    device: d,
                    line: i as u32 + 1,
                });
            }
            None => {
                before += u128::from(line.length);
            }
        }
    }
    None
}

/// Returns the first refusal of a line.
pub fn lines_refusal(
    leaves: &[Leaf],
    devices: &[Planned<'_>],
    lowers: &[DeviceLowers],
) -> Option<Refusal>
    requires few { length devices.now ≤ most_devices }
    requires lines { All (λ d. length d.table ≤ most_lines) devices.now }
    requires lowers { AreLowers (configuration leaves.now devices.now) lowers.now }
    ensures { let c = configuration leaves.now devices.now in result ≡ first (each_device c (table_rules c)) }
{
    for (i, device) in devices.iter().enumerate() {
        let rows = lowers[i].lines();
        match table_refusal(leaves, devices, device, rows, i as u32 + 1) {
            Some(refusal) => return Some(refusal),
            None => {}
        }
    }
    None
}
