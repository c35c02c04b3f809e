//! The rules on a line's stripes and encryption units.
ghost use Rattle.std.specs.Prelude.{◌≡◌, ◌∷◌, [], ℕ, option_map};
ghost use Rattle.dm_table.specs.Grammar.{IsTargetOfGrammar};
ghost use Rattle.stack_rules.specs.Passing.{refusal_at};
ghost use Rattle.stack_rules.specs.declared.refusal.LoadKind.TheVariants as kinds;
ghost use Rattle.stack_rules.specs.Rules.{first, refuse, cuts_unit, is_off_unit, is_undivided};

use dm_table::{Line, Target};
use stack_rules::{LoadKind, crypt_of, unit_sectors};

// Returns whether a line's length isn't a multiple of its stripes and chunk size.
fn is_undivided(line: &Line) -> bool
    requires { IsTargetOfGrammar line.now.target }
    ensures { result ≡ is_undivided line.now.length line.now.target }
{
    match &line.target {
        Target::Striped { chunk, bases } => {
            let width = bases.as_slice().len() as u128 * u128::from(*chunk);
            u128::from(line.length) % width != 0
        }
        Target::Unstriped(unstriped) => line.length % u64::from(unstriped.chunk) != 0,
        _ => false,
    }
}

// Returns whether the length of a `crypt` line isn't a multiple of its encryption unit.
fn cuts_unit(line: &Line) -> bool
    ensures { result ≡ cuts_unit line.now.length line.now.target }
{
    match crypt_of(&line.target) {
        Some(crypt) => line.length % u64::from(unit_sectors(crypt)) != 0,
        None => false,
    }
}

// Returns whether the `iv_offset` of a `crypt` line isn't a multiple of the sectors of its encryption unit.
fn is_off_unit(line: &Line) -> bool
    ensures { result ≡ is_off_unit line.now.length line.now.target }
{
    match crypt_of(&line.target) {
        Some(crypt) => crypt.iv_offset % u64::from(unit_sectors(crypt)) != 0,
        None => false,
    }
}

/// Returns the first rule on stripes and encryption units that refuses a line.
pub fn part_fault(line: &Line) -> Option<LoadKind>
    requires { IsTargetOfGrammar line.now.target }
    ensures { (d l : ℕ) → option_map (refusal_at d l) result ≡ first (refuse kinds.StripesDontDivide d l (is_undivided line.now.length line.now.target) ∷ refuse kinds.UnitDoesntDivide d l (cuts_unit line.now.length line.now.target) ∷ refuse kinds.IvOffset d l (is_off_unit line.now.length line.now.target) ∷ []) }
{
    if is_undivided(line) {
        return Some(LoadKind::StripesDontDivide);
    }
    if cuts_unit(line) {
        return Some(LoadKind::UnitDoesntDivide);
    }
    if is_off_unit(line) {
        return Some(LoadKind::IvOffset);
    }
    None
}
