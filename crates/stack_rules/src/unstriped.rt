//! The range of an `unstriped` line.
ghost use Rattle.std.specs.Prelude.{◌≡◌, ◌+◌};
ghost use Rattle.dm_table.specs.Grammar.{IsUnstripedOfGrammar};
ghost use Rattle.stack_rules.specs.targets.Unstriped.{striped_span};

use dm_table::Unstriped;

/// Returns the sector of the striped device at which the last chunk of a line of `length` sectors ends.
pub fn striped_end(line: &Unstriped, length: u64) -> u128
    requires { IsUnstripedOfGrammar line.now }
    ensures { result ≡ line.now.base.offset + striped_span line.now length }
{
    let chunks = (length / u64::from(line.chunk)).saturating_sub(1);
    let last = u128::from(chunks) * u128::from(line.stripes) + u128::from(line.stripe);
    u128::from(line.base.offset) + (last + 1) * u128::from(line.chunk)
}
