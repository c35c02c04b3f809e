//! The logical blocks of all devices.
ghost use Rattle.std.specs.Prelude.{◌≡◌, ◌≤◌, ◌<◌, ◌+◌, ℕ, length, map, slice_get, IfOk, OnErr};
ghost use Rattle.std.specs.Option.{option_map_or};
ghost use Rattle.allocation.specs.Refusal.{IsOutOfMemory};
ghost use Rattle.stack_rules.specs.declared.lower.Lower.{Lower as SomeLower};
ghost use Rattle.stack_rules.specs.Records.{Configuration};
ghost use Rattle.stack_rules.specs.Names.{names, lines_of};
ghost use Rattle.stack_rules.specs.Descend.{by_name, greatest};
ghost use Rattle.stack_rules.specs.Passing.{Mean, RowsMean};
ghost use Rattle.linux_rules.specs.Blocks.{block_in, data_block, line_block, logical_block, lower_block, table_block, unit_block, AreBlocks};

use allocation::{OutOfMemory, filled};
use dm_table::{Line, Target};
use stack_config::{Config, DevId};
use stack_rules::{LineLowers, Lower, block_sectors, crypt_of, unit_sectors, verity_of};

/// The most devices over each other.
const MOST_DEPTH: u64 = 8;

/// The logical block of a leaf or device.
fn block_in(blocks: &[u64], lower: Lower) -> u64
    ensures { result ≡ block_in blocks.now lower }
{
    match lower {
        Lower::Leaf(_) => 1,
        Lower::Device(d) => match blocks.get(d.0 as usize) {
            Some(block) => *block,
            None => 0,
        },
    }
}

/// The logical block of the i-th lower device; of none if there is none.
pub(crate) fn block_at(blocks: &[u64], lowers: &[Lower], i: usize) -> u64
    ensures { result ≡ option_map_or (block_in blocks.now) (slice_get lowers.now i) 0 }
{
    match lowers.get(i) {
        Some(lower) => block_in(blocks, *lower),
        None => 0,
    }
}

#[tactic(auto, using(crate::proofs::GreatestLemmas::greatest_more))]
fn largest_block(blocks: &[u64], lowers: &[Lower]) -> u64
    ensures { result ≡ greatest (map (block_in blocks.now) lowers.now) }
{
    let mut largest = 0;
    for lower in lowers {
        largest = largest.max(block_in(blocks, *lower));
    }
    largest
}

/// The largest logical block of the devices on which a line's sectors lie, at least one sector.
pub(crate) fn lower_block(blocks: &[u64], target: &Target, lowers: &[Lower]) -> u64
    ensures value { (c : Configuration) → Mean c lowers.now (names target.now) → result ≡ lower_block (by_name c 0 (block_in blocks.now)) target.now }
    ensures some { 1 ≤ result }
{
    match verity_of(target) {
        Some(_) => return block_at(blocks, lowers, 0).max(1),
        None => {}
    }
    largest_block(blocks, lowers).max(1)
}

fn unit_block(target: &Target) -> u32
    ensures { result ≡ unit_block target.now }
{
    match crypt_of(target) {
        Some(crypt) => unit_sectors(crypt),
        None => 1,
    }
}

fn data_block(target: &Target) -> u32
    ensures { result ≡ data_block target.now }
{
    match verity_of(target) {
        Some(verity) => block_sectors(verity),
        None => 1,
    }
}

/// The largest logical block of a line: of what it lies on, and its own.
pub(crate) fn line_block(blocks: &[u64], target: &Target, lowers: &[Lower]) -> u64
    ensures value { (c : Configuration) → Mean c lowers.now (names target.now) → result ≡ line_block (by_name c 0 (block_in blocks.now)) target.now }
    ensures some { 1 ≤ result }
{
    let own = unit_block(target).max(data_block(target));
    lower_block(blocks, target, lowers).max(u64::from(own))
}

/// The largest logical block of a device's lines.
fn table_block(blocks: &[u64], lines: &[Line], rows: &[LineLowers]) -> u64
    requires { length lines.now ≤ length rows.now }
    ensures { (c : Configuration) → RowsMean c rows.now lines.now → result ≡ table_block c (block_in blocks.now) lines.now }
{
    let mut largest = 0;
    for (i, line) in lines.iter().enumerate() {
        largest = largest.max(line_block(blocks, &line.target, rows[i].as_slice()));
    }
    largest
}

/// What the names in the lines of a device mean.
pub(crate) fn rows(config: &Config, d: DevId) -> &[LineLowers]
    requires { d.0 < length config.now.devices }
    ensures { RowsMean config.now result.now (lines_of config.now d.0) }
{
    config.facts().devices[d.0 as usize].lowers.lines()
}

/// Sets the blocks of all devices by those of the devices beneath.
fn settle(config: &Config, blocks: &mut [u64])
    requires { length blocks.old ≡ length config.now.devices }
    ensures { (k : ℕ) → AreBlocks config.now k blocks.old → AreBlocks config.now (k + 1) blocks.new }
{
    for d in 0..config.count() {
        let device = DevId(d as u32);
        let lines = config.table(device).lines();
        let block = table_block(blocks, lines, rows(config, device));
        blocks[d] = block;
    }
}

/// The logical block of each device.
///
/// # Errors
///
/// An allocation of room for as many numbers as there are devices was refused.
pub(crate) fn blocks(config: &Config) -> Result<Vec<u64>, OutOfMemory>
    ensures ok { IfOk result (λ blocks. (lower : SomeLower) → block_in blocks.items lower ≡ logical_block config.now lower) }
    ensures count { IfOk result (λ blocks. length blocks.items ≡ length config.now.devices) }
    ensures err { OnErr result (IsOutOfMemory (length config.now.devices)) }
{
    let mut blocks = filled(config.alloc(), config.count(), 0)?;
    for _depth in 0..MOST_DEPTH {
        settle(config, blocks.as_mut_slice());
    }
    Ok(blocks)
}
