//! Reading the key description of a `verity` line.
ghost use Rattle.std.specs.Prelude.{◌≡◌, drop};
ghost use Rattle.table_text.specs.Reading.{IsReading};
ghost use Rattle.dm_table.specs.SignatureKey.{description_at, signature_key_at};

use crate::cut::Words;
use crate::line_fault::LineFault;
use crate::option_values::option_value;
use dm_table::{Name, Options, TextKind, is_kept, is_key_description};
use std::alloc::Global;

/// Reads the key description of a line with these options. The arguments are their number, and the options with their values.
pub(crate) fn read_signature_key(
    alloc: Global,
    mut arguments: Words<'_>,
    options: &Options,
) -> Result<Option<Name>, LineFault>
    ensures { IsReading result (signature_key_at options.now (drop 1 arguments.entry)) }
{
    arguments.next_word();
    if !is_kept(options, b"root_hash_sig_key_desc") {
        return Ok(None);
    }
    let key = read_description(alloc, &arguments)?;
    Ok(Some(key))
}

fn read_description(alloc: Global, words: &Words<'_>) -> Result<Name, LineFault>
    ensures { IsReading result (description_at words.now) }
{
    let word = option_value(words, b"root_hash_sig_key_desc")?;
    if !is_key_description(word) {
        return Err(LineFault::Kind(TextKind::Option));
    }
    let key = Name::new(alloc, word)?;
    Ok(key)
}
