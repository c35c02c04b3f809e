//! Stack texts: the devices of the kernel's parameter `dm-mod.create=`.
ghost use Rattle.std.specs.Prelude.{◌≡◌, ◌∷◌, ◌^◌, ◌-◌, ◌<◌, length, MatchResult};
ghost use Rattle.dm_table.specs.declared.fault.ParseFault.TheVariants as parse_fault;
ghost use Rattle.dm_table.specs.Words.{fields_of};
ghost use Rattle.dm_table.specs.Reading.{IsAnswer};
ghost use Rattle.dm_table.specs.StackText.{entry_lines, entry_of, flags_at, head_of, is_minor, stack_of};

use crate::cut::{Pieces, Words, is_blank, is_text, trim};
use crate::line::read_line_at;
use crate::numbers::number;
use allocation::push;
use dm_table::{Entry, Name, ParseFault, StackText, Table, TextFault, TextKind, is_mapped_name};
use std::alloc::Global;

/// Reads a stack text: entries `<name>,<uuid>,<minor>,<flags>,<table>[,<table>+]`, separated by semicolons, as in the
/// kernel's guide `admin-guide/device-mapper/dm-init.rst`. A blank entry is skipped, but numbered. A text without
/// entries is a stack without devices.
///
/// # Errors
///
/// - `Text` with the first fault in reading order. A byte that no text may contain comes before all other faults,
///   with entry 0 and line 0. A fault before the first line of an entry has line 0.
/// - `NoMemory` if an allocation of at most `most_name` (255) elements fails.
pub fn parse_stack(alloc: Global, text: &[u8]) -> Result<StackText, ParseFault>
    requires { length text.now < 2 ^ 32 - 1 }
    ensures { IsAnswer result (stack_of text.now) }
{
    if !is_text(text) {
        return Err(fault(0, TextKind::NotText));
    }
    let mut entries = Vec::new(alloc);
    let mut number = 0;
    let mut texts = Pieces::new(text, b';');
    'entries: while let Some(entry) = texts.next_piece() {
        number += 1;
        if !is_blank(entry) {
            push(&mut entries, read_entry(alloc, entry, number)?)?;
        }
    }
    Ok(StackText::new(entries))
}

fn read_entry(alloc: Global, text: &[u8], number: u32) -> Result<Entry, ParseFault>
    requires { length text.now < 2 ^ 32 - 1 }
    ensures { IsAnswer result (entry_of number (fields_of text.now)) }
{
    let head = match read_head(Pieces::new(text, b',')) {
        Ok(head) => head,
        Err(kind) => return Err(fault(number, kind)),
    };
    let table = read_lines(alloc, number, head.line, head.lines)?;
    let name = Name::new(alloc, head.name)?;
    Ok(Entry {
        number,
        name,
        writable: head.writable,
        table,
    })
}

// The fields of an entry before its lines, its first line, and the lines after it.
#[derive(Drop)]
struct Head<'a> {
    name: &'a [u8],
    writable: bool,
    line: &'a [u8],
    lines: Pieces<'a>,
}

fn read_head(mut fields: Pieces<'_>) -> Result<Head<'_>, TextKind>
    ensures { MatchResult result
        (λ head. head_of fields.entry ≡ Ok (record {
          name = head.name.now;
          writable = head.writable;
          lines = head.line.now ∷ head.lines;
        }))
        (λ kind. head_of fields.entry ≡ Err kind) }
{
    let name = fields.take_field()?;
    let _uuid = fields.take_field()?;
    let minor = fields.take_field()?;
    let flags = fields.take_field()?;
    let line = fields.take_field()?;
    let name = trim(name);
    if !is_mapped_name(name) {
        return Err(TextKind::Name);
    }
    if !is_minor(trim(minor)) {
        return Err(TextKind::Number);
    }
    let writable = read_flags(trim(flags))?;
    Ok(Head {
        name,
        writable,
        line,
        lines: fields,
    })
}

fn fault(entry: u32, kind: TextKind) -> ParseFault
    ensures { result ≡ parse_fault.Text (record { entry = entry; line = 0; kind = kind }) }
{
    ParseFault::Text(TextFault {
        entry,
        line: 0,
        kind,
    })
}

fn is_minor(word: &[u8]) -> bool
    ensures { result ≡ is_minor word.now }
{
    word.is_empty() || number(word).is_some()
}

fn read_flags(word: &[u8]) -> Result<bool, TextKind>
    ensures { result ≡ flags_at word.now }
{
    match word {
        b"ro" => Ok(false),
        b"rw" => Ok(true),
        _ => Err(TextKind::Flags),
    }
}

fn read_lines(
    alloc: Global,
    number: u32,
    first: &[u8],
    mut fields: Pieces<'_>,
) -> Result<Table, ParseFault>
    requires { length fields < 2 ^ 32 - 1 }
    ensures { IsAnswer result (entry_lines number 1 (first.now ∷ fields.entry)) }
{
    let mut lines = Vec::new(alloc);
    let mut line = 1;
    push(
        &mut lines,
        read_line_at(alloc, Words::new(first), number, line)?,
    )?;
    'lines: while let Some(field) = fields.next_piece() {
        line += 1;
        push(
            &mut lines,
            read_line_at(alloc, Words::new(field), number, line)?,
        )?;
    }
    Ok(Table::new(lines))
}
