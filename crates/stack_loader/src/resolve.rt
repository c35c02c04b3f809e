//! The leaves and devices that the names in each line refer to.
ghost use Rattle.std.specs.Prelude.{◌≡◌, ◌<◌, ◌≤◌, length, slice_index_or, All, IfOk, IfErr};
ghost use Rattle.allocation.specs.Asked.{asked};
ghost use Rattle.dm_table.specs.declared.table.Target.TheVariants as target;
ghost use Rattle.dm_table.specs.Grammar.{IsTargetOfGrammar, IsLineOfGrammar};
ghost use Rattle.stack_rules.specs.Records.{Configuration, configuration};
ghost use Rattle.stack_rules.specs.Descend.{most_devices};
ghost use Rattle.stack_loader.specs.Index.{IsIndex};
ghost use Rattle.stack_rules.specs.Kept.{AreLowers};
ghost use Rattle.stack_rules.specs.Names.{names};
ghost use Rattle.stack_rules.specs.Passing.{IsPassed, AreFound, RowsMean};
ghost use Rattle.stack_rules.specs.Rules.{unknown_in, unknown_names, most_leaves, most_lines};

use crate::index::Index;
use allocation::{OutOfMemory, push, with_capacity};
use dm_table::{Line, Target, Verity};
use stack_rules::{
    DeviceLowers, Leaf, LineLowers, LoadFault, LoadKind, Planned, Refusal, name_count,
};
use std::alloc::Global;

/// Returns name `i` of a `verity` line, from 0 on.
fn verity_name(verity: &Verity, i: usize) -> &[u8]
    requires { i < length (names (target.Verity verity.now)) }
    ensures { result.now ≡ slice_index_or (names (target.Verity verity.now)) i result.now }
{
    match i {
        0 => verity.data.as_slice(),
        1 => verity.hash.as_slice(),
        _ => match &verity.parity {
            Some(parity) => parity.device.as_slice(),
            None => &[],
        },
    }
}

/// Returns name `i` of a target, from 0 on.
fn name_at(target: &Target, i: usize) -> &[u8]
    requires { i < length (names target.now) }
    ensures { result.now ≡ slice_index_or (names target.now) i result.now }
{
    match target {
        Target::Linear(base) => base.device.as_slice(),
        Target::Striped { bases, .. } => bases.as_slice()[i].device.as_slice(),
        Target::Zero | Target::Error => &[],
        Target::Crypt(crypt) => crypt.base.device.as_slice(),
        Target::Verity(verity) => verity_name(verity, i),
        Target::Unstriped(unstriped) => unstriped.base.device.as_slice(),
    }
}

/// Returns what the names refer to, or `None` if one is unknown.
fn line_lowers(
    alloc: Global,
    index: &Index,
    target: &Target,
) -> Result<Option<LineLowers>, OutOfMemory>
    ensures ok { (c : Configuration) → IsIndex c index.now → IfOk result (λ found. AreFound c found (names target.now)) }
    ensures err { IsTargetOfGrammar target.now → IfErr result (λ e. asked e ≤ 16) }
{
    let count = name_count(target);
    let mut list = with_capacity(alloc, count)?;
    for i in 0..count {
        match index.named(name_at(target, i)) {
            Some(lower) => push(&mut list, lower)?,
            None => return Ok(None),
        }
    }
    Ok(Some(LineLowers::new(list)))
}

/// Returns what the names in a device's lines refer to. `d` is the number of the device, from 1 on.
fn device_lowers(
    alloc: Global,
    index: &Index,
    lines: &[Line],
    d: u32,
) -> Result<DeviceLowers, LoadFault>
    requires few { length lines.now ≤ most_lines }
    requires grammar { All IsLineOfGrammar lines.now }
    ensures { (c : Configuration) → IsIndex c index.now → IsPassed result (unknown_in c d lines.now) (λ rows. RowsMean c rows lines.now) }
{
    let mut rows = with_capacity(alloc, lines.len())?;
    for (i, line) in lines.iter().enumerate() {
        match line_lowers(alloc, index, &line.target)? {
            Some(row) => push(&mut rows, row)?,
            None => {
                return Err(LoadFault::Refused(Refusal {
                    kind: LoadKind::NoSuchDevice,
                    device: d,
                    line: i as u32 + 1,
                }));
            }
        }
    }
    Ok(DeviceLowers::new(rows))
}

/// Returns what all names refer to.
///
/// # Errors
///
/// - `Refused` at the first line with an unknown name.
/// - `NoMemory` if an allocation fails.
pub fn lowers_of(
    alloc: Global,
    leaves: &[Leaf],
    devices: &[Planned<'_>],
) -> Result<Vec<DeviceLowers>, LoadFault>
    requires leaves { length leaves.now ≤ most_leaves }
    requires devices { length devices.now ≤ most_devices }
    requires lines { All (λ d. length d.table ≤ most_lines) devices.now }
    ensures { let c = configuration leaves.now devices.now in IsPassed result (unknown_names c) (λ lowers. AreLowers c lowers.items) }
{
    let index = Index::new(alloc, leaves, devices)?;
    let mut lowers = with_capacity(alloc, devices.len())?;
    for (i, device) in devices.iter().enumerate() {
        let rows = device_lowers(alloc, &index, device.table().lines(), i as u32 + 1)?;
        push(&mut lowers, rows)?;
    }
    Ok(lowers)
}
