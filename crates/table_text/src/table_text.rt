//! Table texts: the lines of one device.
ghost use Rattle.std.specs.Prelude.{◌≡◌, ◌^◌, ◌-◌, ◌<◌, length};
ghost use Rattle.dm_table.specs.declared.fault.ParseFault.TheVariants as parse_fault;
ghost use Rattle.dm_table.specs.Words.{words};
ghost use Rattle.dm_table.specs.Reading.{IsAnswer};
ghost use Rattle.dm_table.specs.TableText.{table_of, is_skipped};

use crate::cut::{Pieces, Words, is_text};
use crate::line::read_line_at;
use allocation::push;
use dm_table::{ParseFault, Table, TextFault, TextKind};
use std::alloc::Global;

/// Reads a table text, as `dmsetup create` accepts it: one line for each range of sectors, separated by newlines.
/// Blank lines and comments, which begin with `#`, are skipped, but numbered.
///
/// # Errors
///
/// - `Text` with the first fault in reading order, with entry 0. A byte that no text may contain comes before all
///   other faults, with line 0. A text without lines has the fault `Fields` with line 0.
/// - `NoMemory` if an allocation of at most `most_name` (255) elements fails.
pub fn parse_table(alloc: Global, text: &[u8]) -> Result<Table, ParseFault>
    requires { length text.now < 2 ^ 32 - 1 }
    ensures { IsAnswer result (table_of text.now) }
{
    if !is_text(text) {
        return Err(fault(TextKind::NotText));
    }
    let mut lines = Vec::new(alloc);
    let mut number = 0;
    let mut texts = Pieces::new(text, b'\n');
    'lines: while let Some(line) = texts.next_piece() {
        number += 1;
        if !is_skipped(line) {
            push(
                &mut lines,
                read_line_at(alloc, Words::new(line), 0, number)?,
            )?;
        }
    }
    if lines.is_empty() {
        return Err(fault(TextKind::Fields));
    }
    Ok(Table::new(lines))
}

fn fault(kind: TextKind) -> ParseFault
    ensures { result ≡ parse_fault.Text (record { entry = 0; line = 0; kind = kind }) }
{
    ParseFault::Text(TextFault {
        entry: 0,
        line: 0,
        kind,
    })
}

/// Returns whether the line is blank or a comment.
fn is_skipped(line: &[u8]) -> bool
    ensures { result ≡ is_skipped (words line.now) }
{
    match Words::new(line).next_word() {
        None => true,
        Some(word) => word.starts_with(b"#"),
    }
}
