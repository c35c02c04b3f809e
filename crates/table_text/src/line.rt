//! A table line.
ghost use Rattle.dm_table.specs.Reading.{IsAnswer, at_place};
ghost use Rattle.table_text.specs.Reading.{IsReading};
ghost use Rattle.dm_table.specs.Lines.{line_of};
ghost use Rattle.dm_table.specs.Words.{words};

use crate::cut::Words;
use crate::line_fault::LineFault;
use crate::numbers::number;
use crate::target::read_target;
use dm_table::{Line, ParseFault, TextFault, TextKind};
use std::alloc::Global;

/// Reads a line; a fault gets these numbers of its entry and line.
pub(crate) fn read_line_at(
    alloc: Global,
    words: Words<'_>,
    entry: u32,
    line: u32,
) -> Result<Line, ParseFault>
    ensures { IsAnswer result (at_place entry line (line_of words.entry)) }
{
    match read_line(alloc, words) {
        Ok(value) => Ok(value),
        Err(LineFault::Kind(kind)) => Err(ParseFault::Text(TextFault { entry, line, kind })),
        Err(LineFault::NoMemory) => Err(ParseFault::NoMemory),
    }
}

fn read_line(alloc: Global, mut words: Words<'_>) -> Result<Line, LineFault>
    ensures { IsReading result (line_of words.entry) }
{
    let first = words.take_word()?;
    let count = words.take_word()?;
    let kind = words.take_word()?;
    let start = number(first).ok_or(TextKind::Number)?;
    let length = number(count).ok_or(TextKind::Number)?;
    let target = read_target(alloc, kind, words)?;
    Ok(Line {
        start,
        length,
        target,
    })
}
