//! Printing optional arguments.
ghost use Rattle.std.specs.Prelude.{◌≤◌, IfErr, OnOk};
ghost use Rattle.allocation.specs.Asked.{asked};
ghost use Rattle.table_text.specs.ArgumentWords.{options_words};
ghost use Rattle.table_text.specs.Print.{PrintsWords, printed_length};

use crate::print::{push_spaced, push_spaced_number};
use allocation::OutOfMemory;
use dm_table::Name;

/// Appends the number of options and the options, or nothing if there are none.
pub(crate) fn print_options(text: &mut Vec<u8>, options: &[Name]) -> Result<(), OutOfMemory>
    ensures ok { OnOk result (PrintsWords text.old (options_words options.now) text.new) }
    ensures err { IfErr result (λ e. asked e ≤ printed_length (options_words options.now)) }
{
    if options.is_empty() {
        return Ok(());
    }
    push_spaced_number(text, options.len() as u64)?;
    print_words(text, options)?;
    Ok(())
}

fn print_words(text: &mut Vec<u8>, words: &[Name]) -> Result<(), OutOfMemory>
    ensures ok { OnOk result (PrintsWords text.old words.now text.new) }
    ensures err { IfErr result (λ e. asked e ≤ printed_length words.now) }
{
    for word in words {
        push_spaced(text, word.as_slice())?;
    }
    Ok(())
}
