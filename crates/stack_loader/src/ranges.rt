//! The rules on the sectors that a line maps.
ghost use Rattle.std.specs.Prelude.{◌≡◌, ℕ, map};
ghost use Rattle.std.specs.List.{list_any};
ghost use Rattle.dm_table.specs.declared.table.Target.TheVariants as target;
ghost use Rattle.dm_table.specs.Grammar.{IsTargetOfGrammar, IsVerityOfGrammar};
ghost use Rattle.stack_rules.specs.Records.{configuration};
ghost use Rattle.stack_rules.specs.Names.{size, names};
ghost use Rattle.stack_rules.specs.Passing.{Mean};
ghost use Rattle.stack_rules.specs.Rules.{ends_beyond, is_beyond, is_uncovered, is_tree_beyond, is_unprotected};

use dm_table::{Base, Line, Target, Verity};
use stack_rules::{
    Leaf, Lower, Planned, covered_sectors, data_sectors, parity_sectors, striped_end, tree_sectors,
    verity_of,
};
use std::slice;

// Returns the size of a lower device in sectors.
fn size_of(leaves: &[Leaf], devices: &[Planned<'_>], lower: Lower) -> u128
    ensures { result ≡ size (configuration leaves.now devices.now) lower }
{
    match lower {
        Lower::Leaf(i) => match leaves.get(i as usize) {
            Some(leaf) => u128::from(leaf.sectors()),
            None => 0,
        },
        Lower::Device(d) => match devices.get(d.0 as usize) {
            Some(device) => device.size(),
            None => 0,
        },
    }
}

// Returns whether `sectors` sectors from one of the bases on end after its device.
fn are_beyond(
    leaves: &[Leaf],
    devices: &[Planned<'_>],
    lowers: &[Lower],
    bases: &[Base],
    sectors: u64,
) -> bool
    requires { Mean (configuration leaves.now devices.now) lowers.now (map (λ b. b.device) bases.now) }
    ensures { result ≡ list_any (ends_beyond (configuration leaves.now devices.now) sectors) bases.now }
{
    for (i, base) in bases.iter().enumerate() {
        let end = u128::from(base.offset) + u128::from(sectors);
        if size_of(leaves, devices, lowers[i]) < end {
            return true;
        }
    }
    false
}

// Returns whether the data blocks of a `verity` line, the hash blocks that its parity covers, or the parity itself end
// after their device.
fn are_blocks_beyond(
    leaves: &[Leaf],
    devices: &[Planned<'_>],
    lowers: &[Lower],
    verity: &Verity,
) -> bool
    requires grammar { IsVerityOfGrammar verity.now }
    requires lowers { Mean (configuration leaves.now devices.now) lowers.now (names (target.Verity verity.now)) }
    ensures { (length : ℕ) → result ≡ is_beyond (configuration leaves.now devices.now) length (target.Verity verity.now) }
{
    if size_of(leaves, devices, lowers[0]) < data_sectors(verity) {
        return true;
    }
    match &verity.parity {
        Some(parity) => {
            size_of(leaves, devices, lowers[1]) < covered_sectors(verity, parity)
                || size_of(leaves, devices, lowers[2]) < parity_sectors(verity, parity)
        }
        None => false,
    }
}

/// Returns whether a mapped range ends after the named device: the range of a line, the share of a stripe, or all
/// data blocks of a `verity` line, what its parity covers, and the parity.
pub fn is_beyond(leaves: &[Leaf], devices: &[Planned<'_>], lowers: &[Lower], line: &Line) -> bool
    requires grammar { IsTargetOfGrammar line.now.target }
    requires lowers { Mean (configuration leaves.now devices.now) lowers.now (names line.now.target) }
    ensures { result ≡ is_beyond (configuration leaves.now devices.now) line.now.length line.now.target }
{
    let length = line.length;
    match &line.target {
        Target::Linear(base) => {
            are_beyond(leaves, devices, lowers, slice::from_ref(base), length)
        }
        Target::Striped { bases, .. } => {
            let bases = bases.as_slice();
            let share = length / bases.len() as u64;
            are_beyond(leaves, devices, lowers, bases, share)
        }
        Target::Zero | Target::Error => false,
        Target::Crypt(crypt) => {
            let base = slice::from_ref(&crypt.base);
            are_beyond(leaves, devices, lowers, base, length)
        }
        Target::Verity(verity) => are_blocks_beyond(leaves, devices, lowers, verity),
        Target::Unstriped(line) => size_of(leaves, devices, lowers[0]) < striped_end(line, length),
    }
}

/// Returns whether the line has parity that doesn't cover all data and hash blocks.
pub fn is_unprotected(line: &Line) -> bool
    requires { IsTargetOfGrammar line.now.target }
    ensures { result ≡ is_unprotected line.now.length line.now.target }
{
    match verity_of(&line.target) {
        Some(verity) => stack_rules::is_unprotected(verity),
        None => false,
    }
}

/// Returns whether the line is longer than its data blocks.
pub fn is_uncovered(line: &Line) -> bool
    ensures { result ≡ is_uncovered line.now.length line.now.target }
{
    match verity_of(&line.target) {
        Some(verity) => data_sectors(verity) < u128::from(line.length),
        None => false,
    }
}

/// Returns whether the tree ends after the hash device.
pub fn is_tree_beyond(
    leaves: &[Leaf],
    devices: &[Planned<'_>],
    lowers: &[Lower],
    target: &Target,
) -> bool
    requires grammar { IsTargetOfGrammar target.now }
    requires lowers { Mean (configuration leaves.now devices.now) lowers.now (names target.now) }
    ensures { result ≡ is_tree_beyond (configuration leaves.now devices.now) target.now }
{
    match verity_of(target) {
        Some(verity) => size_of(leaves, devices, lowers[1]) < tree_sectors(verity),
        None => false,
    }
}
