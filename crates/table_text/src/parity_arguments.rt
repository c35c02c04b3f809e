//! Reading the parity of a `verity` line.
ghost use Rattle.std.specs.Prelude.{◌≡◌, drop};
ghost use Rattle.table_text.specs.Reading.{IsReading};
ghost use Rattle.dm_table.specs.Parity.{fec_at, has_parity, parity_at, roots_at};

use crate::cut::Words;
use crate::line_fault::LineFault;
use crate::numbers::read_number;
use crate::option_values::option_value;
use crate::verity_arguments::check_device;
use dm_table::{Name, Options, Parity, TextKind, is_kept};
use std::alloc::Global;

/// Reads the parity of a line with these options. The arguments are their number, and the options with their values.
pub(crate) fn read_parity(
    alloc: Global,
    mut arguments: Words<'_>,
    options: &Options,
) -> Result<Option<Parity>, LineFault>
    ensures { IsReading result (parity_at options.now (drop 1 arguments.entry)) }
{
    arguments.next_word();
    if !has_parity(options) {
        return Ok(None);
    }
    let parity = read_fec(alloc, &arguments)?;
    Ok(Some(parity))
}

fn has_parity(options: &Options) -> bool
    ensures { result ≡ has_parity options.now }
{
    is_kept(options, b"use_fec_from_device")
        || is_kept(options, b"fec_roots")
        || is_kept(options, b"fec_blocks")
        || is_kept(options, b"fec_start")
}

fn read_fec(alloc: Global, words: &Words<'_>) -> Result<Parity, LineFault>
    ensures { IsReading result (fec_at words.now) }
{
    let device = option_value(words, b"use_fec_from_device")?;
    check_device(device)?;
    let roots = read_roots(option_value(words, b"fec_roots")?)?;
    let blocks = read_number(option_value(words, b"fec_blocks")?)?;
    let start = read_number(option_value(words, b"fec_start")?)?;
    let device = Name::new(alloc, device)?;
    Ok(Parity {
        device,
        roots,
        blocks,
        start,
    })
}

fn read_roots(word: &[u8]) -> Result<u32, TextKind>
    ensures { result ≡ roots_at word.now }
{
    let roots = read_number(word)?;
    if 2 <= roots && roots <= 24 {
        Ok(roots as u32)
    } else {
        Err(TextKind::Option)
    }
}
