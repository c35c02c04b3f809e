//! The rules on a line by itself, and on its target.
ghost use Rattle.std.specs.Prelude.{◌≡◌, ◌≤◌};
ghost use Rattle.std.specs.List.{list_any};
ghost use Rattle.dm_table.specs.Grammar.{IsTargetOfGrammar};
ghost use Rattle.linux_rules.specs.Rules.{are_parts, begins_in_unit, begins_with_verity, divides_block, divides_chunk, is_above_size, is_mixed, is_part, is_verity, remaining, takes_parts};

use dm_table::{Base, Line, Target};
use stack_rules::{crypt_of, unit_sectors, verity_of};
use std::slice;

/// The sectors of the largest device that Linux makes, and one more.
const SIZE_LIMIT: u128 = 1 << 54;

/// Whether so many sectors aren't whole blocks.
pub(crate) fn is_part(block: u64, sectors: u64) -> bool
    requires { 1 ≤ block }
    ensures { result ≡ is_part block sectors }
{
    sectors % block != 0
}

/// Whether the line ends beyond the sectors of the largest device that Linux makes.
pub(crate) fn is_above_size(line: &Line) -> bool
    ensures { result ≡ is_above_size line.now }
{
    u128::from(line.start) + u128::from(line.length) >= SIZE_LIMIT
}

fn is_verity(target: &Target) -> bool
    ensures { result ≡ is_verity target.now }
{
    verity_of(target).is_some()
}

/// Whether the first line is a `verity` line.
pub(crate) fn begins_with_verity(lines: &[Line]) -> bool
    ensures { result ≡ begins_with_verity lines.now }
{
    match lines.first() {
        Some(line) => is_verity(&line.target),
        None => false,
    }
}

/// Whether one of the line and the first line is a `verity` line.
pub(crate) fn is_mixed(verity_first: bool, target: &Target) -> bool
    ensures { result ≡ is_mixed verity_first target.now }
{
    if is_verity(target) {
        !verity_first
    } else {
        verity_first
    }
}

fn has_part(block: u64, bases: &[Base]) -> bool
    requires { 1 ≤ block }
    ensures { result ≡ list_any (λ base. is_part block base.offset) bases.now }
{
    bases.iter().any(|base| is_part(block, base.offset))
}

fn are_parts(block: u64, sectors: u64, bases: &[Base]) -> bool
    requires { 1 ≤ block }
    ensures { result ≡ are_parts block sectors bases.now }
{
    is_part(block, sectors) || has_part(block, bases)
}

/// Whether what a line of so many sectors takes of the devices that it names isn't whole blocks.
pub(crate) fn takes_parts(block: u64, sectors: u64, target: &Target) -> bool
    requires block { 1 ≤ block }
    requires grammar { IsTargetOfGrammar target.now }
    ensures { result ≡ takes_parts block sectors target.now }
{
    match target {
        Target::Linear(base) => are_parts(block, sectors, slice::from_ref(base)),
        Target::Striped { bases, .. } => {
            let bases = bases.as_slice();
            let share = sectors / bases.len() as u64;
            are_parts(block, share, bases)
        }
        Target::Zero | Target::Error => false,
        Target::Crypt(crypt) => are_parts(block, sectors, slice::from_ref(&crypt.base)),
        Target::Verity(_) => is_part(block, sectors),
        Target::Unstriped(line) => are_parts(block, sectors, slice::from_ref(&line.base)),
    }
}

fn remaining(block: u64, sectors: u64) -> u64
    requires { 1 ≤ block }
    ensures { result ≡ remaining block sectors }
{
    if sectors % block == 0 {
        0
    } else {
        block - sectors % block
    }
}

/// Whether a line has the rest of a block of its device, and the rest isn't whole blocks of the line's devices.
pub(crate) fn divides_block(block: u64, lower: u64, line: &Line) -> bool
    requires block { 1 ≤ block }
    requires lower { 1 ≤ lower }
    ensures { result ≡ divides_block block lower line.now }
{
    let rest = remaining(block, line.start);
    rest < line.length && is_part(lower, rest)
}

/// Whether a `crypt` line begins inside a unit.
pub(crate) fn begins_in_unit(line: &Line) -> bool
    ensures { result ≡ begins_in_unit line.now }
{
    match crypt_of(&line.target) {
        Some(crypt) => is_part(u64::from(unit_sectors(crypt)), line.start),
        None => false,
    }
}

/// Whether the chunks of a line aren't whole blocks of its devices.
pub(crate) fn divides_chunk(lower: u64, target: &Target) -> bool
    requires { 1 ≤ lower }
    ensures { result ≡ divides_chunk lower target.now }
{
    match target {
        Target::Striped { chunk, .. } => is_part(lower, *chunk),
        Target::Unstriped(line) => is_part(lower, u64::from(line.chunk)),
        _ => false,
    }
}
