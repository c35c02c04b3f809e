//! The names in a target.
ghost use Rattle.std.specs.Prelude.{◌≡◌, ◌≤◌, length};
ghost use Rattle.dm_table.specs.Grammar.{IsTargetOfGrammar};
ghost use Rattle.stack_rules.specs.Names.{names};

use dm_table::Target;

/// Returns the number of names in a target, at most 16 for a target of the grammar.
pub fn name_count(target: &Target) -> usize
    ensures value { result ≡ length (names target.now) }
    ensures few { IsTargetOfGrammar target.now → result ≤ 16 }
{
    match target {
        Target::Linear(_) => 1,
        Target::Striped { bases, .. } => bases.as_slice().len(),
        Target::Zero => 0,
        Target::Error => 0,
        Target::Crypt(_) => 1,
        Target::Verity(verity) => match &verity.parity {
            Some(_) => 3,
            None => 2,
        },
        Target::Unstriped(_) => 1,
    }
}
