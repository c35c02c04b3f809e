//! The rules on a line over the devices that it names.
ghost use Rattle.std.specs.Prelude.{◌≡◌, ◌≤◌, ◌*◌, nat_lt};
ghost use Rattle.dm_table.specs.Grammar.{IsTargetOfGrammar};
ghost use Rattle.stack_rules.specs.Records.{Configuration};
ghost use Rattle.stack_rules.specs.Names.{size, names};
ghost use Rattle.stack_rules.specs.Descend.{by_name};
ghost use Rattle.stack_rules.specs.Passing.{Mean};
ghost use Rattle.linux_rules.specs.Blocks.{block_in};
ghost use Rattle.linux_rules.specs.Rules.{are_smaller, begins_beyond, first_kind, has_small_block, hash_sectors, line_faults};

use crate::block::{block_at, line_block, lower_block};
use crate::refusal::LinuxKind;
use crate::target::{
    begins_in_unit, divides_block, divides_chunk, is_above_size, is_mixed, takes_parts,
};
use dm_table::{Line, Target, Verity};
use stack_config::Config;
use stack_rules::{Lower, block_sectors, verity_of};

/// The logical block of the line's own device, and whether the device begins with a `verity` line.
#[derive(Clone, Copy)]
pub(crate) struct Above {
    pub(crate) block: u64,
    pub(crate) verity_first: bool,
}

// How many sectors a lower device has.
fn size_of(config: &Config, lower: Lower) -> u128
    ensures { result ≡ size config.now lower }
{
    match lower {
        Lower::Leaf(i) => match config.leaves().get(i as usize) {
            Some(leaf) => u128::from(leaf.sectors()),
            None => 0,
        },
        Lower::Device(d) => match config.devices().get(d.0 as usize) {
            Some(device) => device.size(),
            None => 0,
        },
    }
}

fn hash_sectors(verity: &Verity) -> u32
    ensures { result ≡ hash_sectors verity.now }
{
    verity.hash_block / 512
}

fn are_smaller(verity: &Verity, data_block: u64, hash_block: u64) -> bool
    ensures { result ≡ are_smaller verity.now data_block hash_block }
{
    u64::from(block_sectors(verity)) < data_block || u64::from(hash_sectors(verity)) < hash_block
}

/// Whether a `verity` line has smaller blocks than its devices.
fn has_small_block(blocks: &[u64], target: &Target, lowers: &[Lower]) -> bool
    ensures { (c : Configuration) → Mean c lowers.now (names target.now) → result ≡ has_small_block (by_name c 0 (block_in blocks.now)) target.now }
{
    match verity_of(target) {
        Some(verity) => {
            let data_block = block_at(blocks, lowers, 0);
            let hash_block = block_at(blocks, lowers, 1);
            return are_smaller(verity, data_block, hash_block);
        }
        None => {}
    }
    false
}

/// Whether a tree begins past the end of its device.
fn begins_past(config: &Config, verity: &Verity, hash: Lower) -> bool
    ensures { result ≡ nat_lt (size config.now hash) (verity.now.start * hash_sectors verity.now) }
{
    let begin = u128::from(verity.start) * u128::from(hash_sectors(verity));
    size_of(config, hash) < begin
}

/// Whether the tree of a `verity` line begins past the end of the hash device.
fn begins_beyond(config: &Config, target: &Target, lowers: &[Lower]) -> bool
    requires { Mean config.now lowers.now (names target.now) }
    ensures { result ≡ begins_beyond config.now target.now }
{
    match verity_of(target) {
        Some(verity) => begins_past(config, verity, lowers[1]),
        None => false,
    }
}

/// The first rule that applies to a line.
pub(crate) fn line_fault(
    config: &Config,
    blocks: &[u64],
    above: Above,
    lowers: &[Lower],
    line: &Line,
) -> Option<LinuxKind>
    requires grammar { IsTargetOfGrammar line.now.target }
    requires lowers { Mean config.now lowers.now (names line.now.target) }
    requires block { 1 ≤ above.block }
    ensures { result ≡ first_kind (line_faults config.now (by_name config.now 0 (block_in blocks.now)) above.block above.verity_first line.now) }
{
    let target = &line.target;
    let lower = lower_block(blocks, target, lowers);
    let own = line_block(blocks, target, lowers);
    if is_above_size(line) {
        return Some(LinuxKind::LinuxSize);
    }
    if is_mixed(above.verity_first, target) {
        return Some(LinuxKind::VerityBesideOthers);
    }
    if has_small_block(blocks, target, lowers) {
        return Some(LinuxKind::SmallBlock);
    }
    if begins_beyond(config, target, lowers) {
        return Some(LinuxKind::BeginBeyondDevice);
    }
    if takes_parts(own, line.length, target) {
        return Some(LinuxKind::PartBlock);
    }
    if divides_block(above.block, lower, line) {
        return Some(LinuxKind::DividedBlock);
    }
    if begins_in_unit(line) {
        return Some(LinuxKind::UnitStart);
    }
    if divides_chunk(lower, target) {
        return Some(LinuxKind::DividedChunk);
    }
    None
}
