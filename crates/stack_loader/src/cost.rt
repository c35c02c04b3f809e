//! Costs of all devices.
ghost use Rattle.std.specs.Prelude.{◌≡◌, ◌<◌, ◌≤◌, ◌+◌, ◌^◌, ℕ, List, length, map, slice_index, slice_get, All, IfOk, OnErr};
ghost use Rattle.allocation.specs.Refusal.{IsOutOfMemory};
ghost use Rattle.std.specs.Option.{option_map_or};
ghost use Rattle.dm_table.specs.declared.table.Target.TheVariants as target;
ghost use Rattle.stack_rules.specs.Records.{Configuration, LeafRecord, configuration};
ghost use Rattle.dm_table.specs.Grammar.{IsTargetOfGrammar, IsLineOfGrammar, IsVerityOfGrammar};
ghost use Rattle.stack_rules.specs.Names.{names};
ghost use Rattle.stack_rules.specs.Descend.{greatest, by_name, line_read_cost, line_write_cost};
ghost use Rattle.stack_rules.specs.Kept.{each_mapped};
ghost use Rattle.stack_rules.specs.targets.Verity.{mend_cost};
ghost use Rattle.stack_rules.specs.Passing.{Mean, RowsMean};
ghost use Rattle.stack_loader.specs.Costs.{line_cost, ceiling, cost, cost_in, capped_cost, dearest, AreLineRows, AreMeasured, AreCosts};

use allocation::{OutOfMemory, filled};
use dm_table::{Crypt, Line, Target, Verity};
use stack_rules::{
    DeviceLowers, LineLowers, Lower, Planned, block_sectors, crypt_of, mend_sectors, path_blocks,
    path_sectors, unit_sectors, verity_of,
};
use std::alloc::Global;

/// The direction of an access: a read, or a write with the costs of reading a sector of each device.
#[derive(Clone, Copy)]
pub enum Direction<'a> {
    Read,
    Write(&'a [u64]),
}

/// The largest depth of a device.
pub const MOST_DEPTH: u64 = 8;

/// The largest number of leaf sectors read for one sector.
pub const MOST_COST: u64 = 1 << 32;

/// More than the cost of writing one sector can be.
const MOST_WRITE_COST: u64 = 1 << 60;

fn cost_in(costs: &[u64], lower: Lower) -> u64
    ensures { result ≡ cost_in costs.now lower }
{
    match lower {
        Lower::Leaf(_) => 1,
        Lower::Device(d) => match costs.get(d.0 as usize) {
            Some(cost) => *cost,
            None => 0,
        },
    }
}

#[tactic(auto, using(crate::proofs::GreatestLemmas::greatest_more))]
fn greatest_cost(costs: &[u64], lowers: &[Lower]) -> u64
    ensures { result ≡ greatest (map (cost_in costs.now) lowers.now) }
{
    let mut greatest = 0;
    for lower in lowers {
        greatest = greatest.max(cost_in(costs, *lower));
    }
    greatest
}

/// Returns the cost of lower device `i`, or 0 if there is none.
fn cost_at(costs: &[u64], lowers: &[Lower], i: usize) -> u128
    ensures value { result ≡ option_map_or (cost_in costs.now) (slice_get lowers.now i) 0 }
    ensures fits { result < 2 ^ 64 }
{
    match lowers.get(i) {
        Some(lower) => u128::from(cost_in(costs, *lower)),
        None => 0,
    }
}

/// Returns the cost of restoring one block of a `verity` line, or 0 if the line has no parity.
fn mend_cost(costs: &[u64], verity: &Verity, lowers: &[Lower]) -> u128
    requires { IsVerityOfGrammar verity.now }
    ensures value { result ≡ mend_cost verity.now verity.now.parity (map (cost_in costs.now) lowers.now) }
    ensures fits { result < 2 ^ 96 }
{
    match &verity.parity {
        Some(_) => u128::from(mend_sectors(verity)) * u128::from(greatest_cost(costs, lowers)),
        None => 0,
    }
}

/// Returns the cost of reading a sector of a `verity` line: its data block, a hash block of each level, and what
/// restores each of them.
fn verity_cost(costs: &[u64], verity: &Verity, lowers: &[Lower]) -> u128
    requires { IsVerityOfGrammar verity.now }
    ensures { (c : Configuration) → Mean c lowers.now (names (target.Verity verity.now)) → result ≡ line_read_cost (by_name c 0 (cost_in costs.now)) (target.Verity verity.now) }
{
    let block = u128::from(block_sectors(verity)) * cost_at(costs, lowers, 0);
    let path = u128::from(path_sectors(verity)) * cost_at(costs, lowers, 1);
    let restored = u128::from(path_blocks(verity)) * mend_cost(costs, verity, lowers);
    block + path + restored
}

fn line_read_cost(costs: &[u64], target: &Target, lowers: &[Lower]) -> u128
    requires { IsTargetOfGrammar target.now }
    ensures { (c : Configuration) → Mean c lowers.now (names target.now) → result ≡ line_read_cost (by_name c 0 (cost_in costs.now)) target.now }
{
    match verity_of(target) {
        Some(verity) => return verity_cost(costs, verity, lowers),
        None => {}
    }
    match crypt_of(target) {
        Some(crypt) => u128::from(unit_sectors(crypt)) * cost_at(costs, lowers, 0),
        None => u128::from(greatest_cost(costs, lowers)),
    }
}

/// Returns the cost of writing a sector of a `crypt` line: that of the lower sector, or of reading its unit and
/// writing it as a whole.
fn unit_write_cost(reads: &[u64], costs: &[u64], crypt: &Crypt, lowers: &[Lower]) -> u128
    ensures { (c : Configuration) → Mean c lowers.now (names (target.Crypt crypt.now)) → result ≡ line_write_cost (by_name c 0 (cost_in reads.now)) (by_name c 0 (cost_in costs.now)) (target.Crypt crypt.now) }
{
    let sectors = unit_sectors(crypt);
    let write = cost_at(costs, lowers, 0);
    if sectors == 1 {
        return write;
    }
    u128::from(sectors) * (cost_at(reads, lowers, 0) + write)
}

fn line_write_cost(reads: &[u64], costs: &[u64], target: &Target, lowers: &[Lower]) -> u128
    ensures { (c : Configuration) → Mean c lowers.now (names target.now) → result ≡ line_write_cost (by_name c 0 (cost_in reads.now)) (by_name c 0 (cost_in costs.now)) target.now }
{
    match verity_of(target) {
        Some(_) => return 0,
        None => {}
    }
    match crypt_of(target) {
        Some(crypt) => unit_write_cost(reads, costs, crypt, lowers),
        None => u128::from(greatest_cost(costs, lowers)),
    }
}

fn line_cost(direction: Direction<'_>, costs: &[u64], target: &Target, lowers: &[Lower]) -> u128
    requires { IsTargetOfGrammar target.now }
    ensures { (c : Configuration) → Mean c lowers.now (names target.now) → result ≡ line_cost c direction.entry (by_name c 0 (cost_in costs.now)) target.now }
{
    match direction {
        Direction::Read => line_read_cost(costs, target, lowers),
        Direction::Write(reads) => line_write_cost(reads, costs, target, lowers),
    }
}

/// Returns the cost of the most expensive line of a device, given the costs of the devices that it names.
fn dearest(direction: Direction<'_>, costs: &[u64], lines: &[Line], rows: &[LineLowers]) -> u128
    requires rows { length lines.now ≤ length rows.now }
    requires grammar { All IsLineOfGrammar lines.now }
    ensures { (c : Configuration) → RowsMean c rows.now lines.now → result ≡ dearest c direction.entry (cost_in costs.now) lines.now }
{
    let mut greatest = 0;
    for (i, line) in lines.iter().enumerate() {
        greatest = greatest.max(line_cost(direction, costs, &line.target, rows[i].as_slice()));
    }
    greatest
}

// A read cost above the limit is stored as the smallest such cost, so that no sum overflows and the rule refuses it.
// If the rules on depths and read costs hold, no write cost is above its ceiling.
fn ceiling(direction: Direction<'_>) -> u64
    ensures { result ≡ ceiling direction.entry }
{
    match direction {
        Direction::Read => MOST_COST + 1,
        Direction::Write(_) => MOST_WRITE_COST,
    }
}

fn capped(direction: Direction<'_>, cost: u128) -> u64
    ensures { result ≡ capped_cost direction.entry cost }
{
    cost.min(u128::from(ceiling(direction))) as u64
}

/// Sets the costs of the devices with this depth, given those of the devices with a smaller depth.
fn settle(
    direction: Direction<'_>,
    devices: &[Planned<'_>],
    lowers: &[DeviceLowers],
    depths: &[u64],
    depth: u64,
    costs: &mut [u64],
)
    requires rows { AreLineRows lowers.now devices.now }
    requires depths { length depths.now ≡ length devices.now }
    requires costs { length costs.old ≡ length devices.now }
    ensures { (leaves : List LeafRecord) → let c = configuration leaves devices.now in AreMeasured c lowers.now depths.now → AreCosts c direction.entry depth costs.old → AreCosts c direction.entry (depth + 1) costs.new }
{
    for (d, device) in devices.iter().enumerate() {
        let here = depths[d];
        if here == depth {
            let cost = dearest(direction, costs, device.table().lines(), lowers[d].lines());
            costs[d] = capped(direction, cost);
        }
    }
}

/// Returns the costs of all devices, limited to the ceiling. All depths must be at most 8.
///
/// # Errors
///
/// `OutOfMemory` if an allocation of at most as many numbers as there are devices fails.
pub fn costs(
    alloc: Global,
    direction: Direction<'_>,
    devices: &[Planned<'_>],
    lowers: &[DeviceLowers],
    depths: &[u64],
) -> Result<Vec<u64>, OutOfMemory>
    requires rows { AreLineRows lowers.now devices.now }
    requires depths { length depths.now ≡ length devices.now }
    ensures ok { (leaves : List LeafRecord) → let c = configuration leaves devices.now in AreMeasured c lowers.now depths.now → IfOk result (λ costs. costs.items ≡ each_mapped (λ x. capped_cost direction.entry (cost c direction.entry x)) (length c.devices)) }
    ensures err { OnErr result (IsOutOfMemory (length devices.now)) }
{
    let mut costs = filled(alloc, devices.len(), 0)?;
    for depth in 1..MOST_DEPTH + 1 {
        settle(
            direction,
            devices,
            lowers,
            depths,
            depth,
            costs.as_mut_slice(),
        );
    }
    Ok(costs)
}
