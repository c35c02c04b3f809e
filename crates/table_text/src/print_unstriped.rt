//! Printing the arguments of an `unstriped` line.
ghost use Rattle.std.specs.Prelude.{◌≤◌, ◌∷◌, IfErr, OnOk, codes};
ghost use Rattle.allocation.specs.Asked.{asked};
ghost use Rattle.table_text.specs.Unstriped.{unstriped_words};
ghost use Rattle.table_text.specs.Print.{PrintsWords, printed_length};

use crate::print::{print_base, push_spaced, push_spaced_number};
use allocation::OutOfMemory;
use dm_table::Unstriped;

/// Prints the type and arguments of an `unstriped` line.
pub(crate) fn print_unstriped(text: &mut Vec<u8>, line: &Unstriped) -> Result<(), OutOfMemory>
    ensures ok { OnOk result (PrintsWords text.old (codes "unstriped" ∷ unstriped_words line.now) text.new) }
    ensures err { IfErr result (λ e. asked e ≤ printed_length (codes "unstriped" ∷ unstriped_words line.now)) }
{
    push_spaced(text, b"unstriped")?;
    push_spaced_number(text, u64::from(line.stripes))?;
    push_spaced_number(text, u64::from(line.chunk))?;
    push_spaced_number(text, u64::from(line.stripe))?;
    print_base(text, &line.base)?;
    Ok(())
}
