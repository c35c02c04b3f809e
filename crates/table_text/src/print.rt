//! Printing tables.
ghost use Rattle.std.specs.Prelude.{◌≡◌, ◌≤◌, ◌+◌, ◌∷◌, ◌++◌, [], OnErr, OnOk, IfErr, IfOk, Ok, codes, decimal, flat_map, length};
ghost use Rattle.allocation.specs.Asked.{asked};
ghost use Rattle.allocation.specs.Refusal.{IsOutOfMemory};
ghost use Rattle.table_text.specs.Keys.{printed_lines};
ghost use Rattle.dm_table.specs.Grammar.{IsLineOfGrammar};
ghost use Rattle.dm_table.specs.TableText.{table_of};
ghost use Rattle.table_text.specs.Print.{PrintsWords, base_words, line_text, printed_length, striped_words, printed_table, target_words};

use crate::print_crypt::print_crypt;
use crate::print_unstriped::print_unstriped;
use crate::print_verity::print_verity;
use allocation::{OutOfMemory, append, push};
use dm_table::{Base, Line, Table, Target};
use itoa::Buffer;
use std::alloc::Global;

/// Returns the text of a table, one line per table line, each with a newline at its end. `dmsetup create` accepts it.
/// Keys are printed as zeros of the same length unless `show_keys` is set.
///
/// # Errors
///
/// `OutOfMemory` if an allocation of at most the length of the text fails.
pub fn print_table(alloc: Global, table: &Table, show_keys: bool) -> Result<Vec<u8>, OutOfMemory>
    ensures text { IfOk result (λ text. text.items ≡ printed_table show_keys table.now) }
    ensures reads_back { IfOk result (λ text. table_of text.items ≡ Ok (printed_lines show_keys table.now)) }
    ensures err { OnErr result (IsOutOfMemory (length (printed_table show_keys table.now))) }
{
    let mut text = Vec::new(alloc);
    for line in table.lines() {
        push_line(&mut text, line, show_keys)?;
        push(&mut text, b'\n')?;
    }
    Ok(text)
}

/// Returns the text of a line, without a newline. The key of a `crypt` line is printed as zeros of the same length
/// unless `show_keys` is set.
///
/// # Errors
///
/// `OutOfMemory` if an allocation of at most the length of the text fails.
pub fn print_line(alloc: Global, line: &Line, show_keys: bool) -> Result<Vec<u8>, OutOfMemory>
    ensures text { IfOk result (λ text. text.items ≡ line_text show_keys line.now) }
    ensures reads_back { IsLineOfGrammar line.now → IfOk result (λ text. table_of text.items ≡ Ok (printed_lines show_keys (line.now ∷ []))) }
    ensures err { OnErr result (IsOutOfMemory (length (line_text show_keys line.now))) }
{
    let mut text = Vec::new(alloc);
    push_line(&mut text, line, show_keys)?;
    Ok(text)
}

fn push_line(text: &mut Vec<u8>, line: &Line, show_keys: bool) -> Result<(), OutOfMemory>
    ensures ok { OnOk result (text.new.items ≡ text.old.items ++ line_text show_keys line.now) }
    ensures err { IfErr result (λ e. asked e ≤ length (line_text show_keys line.now)) }
{
    push_number(text, line.start)?;
    push_spaced_number(text, line.length)?;
    print_target(text, &line.target, show_keys)?;
    Ok(())
}

#[tactic(auto, unfolding(crate::specs::Print::target_words))]
fn print_target(text: &mut Vec<u8>, target: &Target, show_keys: bool) -> Result<(), OutOfMemory>
    ensures ok { OnOk result (PrintsWords text.old (target_words show_keys target.now) text.new) }
    ensures err { IfErr result (λ e. asked e ≤ printed_length (target_words show_keys target.now)) }
{
    match target {
        Target::Linear(base) => print_linear(text, base),
        Target::Striped { chunk, bases } => print_striped(text, *chunk, bases.as_slice()),
        Target::Zero => push_spaced(text, b"zero"),
        Target::Error => push_spaced(text, b"error"),
        Target::Crypt(crypt) => print_crypt(text, crypt, show_keys),
        Target::Verity(verity) => print_verity(text, verity),
        Target::Unstriped(line) => print_unstriped(text, line),
    }
}

fn print_linear(text: &mut Vec<u8>, base: &Base) -> Result<(), OutOfMemory>
    ensures ok { OnOk result (PrintsWords text.old (codes "linear" ∷ base_words base.now) text.new) }
    ensures err { IfErr result (λ e. asked e ≤ printed_length (codes "linear" ∷ base_words base.now)) }
{
    push_spaced(text, b"linear")?;
    print_base(text, base)?;
    Ok(())
}

fn print_striped(text: &mut Vec<u8>, chunk: u64, bases: &[Base]) -> Result<(), OutOfMemory>
    ensures ok { OnOk result (PrintsWords text.old (striped_words chunk bases.now) text.new) }
    ensures err { IfErr result (λ e. asked e ≤ printed_length (striped_words chunk bases.now)) }
{
    push_spaced(text, b"striped")?;
    push_spaced_number(text, bases.len() as u64)?;
    push_spaced_number(text, chunk)?;
    print_bases(text, bases)?;
    Ok(())
}

fn print_bases(text: &mut Vec<u8>, bases: &[Base]) -> Result<(), OutOfMemory>
    ensures ok { OnOk result (PrintsWords text.old (flat_map base_words bases.now) text.new) }
    ensures err { IfErr result (λ e. asked e ≤ printed_length (flat_map base_words bases.now)) }
{
    for base in bases {
        print_base(text, base)?;
    }
    Ok(())
}

pub(crate) fn print_base(text: &mut Vec<u8>, base: &Base) -> Result<(), OutOfMemory>
    ensures ok { OnOk result (PrintsWords text.old (base_words base.now) text.new) }
    ensures err { IfErr result (λ e. asked e ≤ printed_length (base_words base.now)) }
{
    push_spaced(text, base.device.as_slice())?;
    push_spaced_number(text, base.offset)?;
    Ok(())
}

pub(crate) fn push_spaced(text: &mut Vec<u8>, word: &[u8]) -> Result<(), OutOfMemory>
    ensures ok { OnOk result (text.new.items ≡ text.old.items ++ 32 ∷ word.now) }
    ensures err { IfErr result (λ e. asked e ≤ 1 + length word.now) }
{
    push(text, b' ')?;
    append(text, word)?;
    Ok(())
}

pub(crate) fn push_spaced_number(text: &mut Vec<u8>, number: u64) -> Result<(), OutOfMemory>
    ensures ok { OnOk result (text.new.items ≡ text.old.items ++ 32 ∷ decimal number) }
    ensures err { IfErr result (λ e. asked e ≤ 1 + length (decimal number)) }
{
    push(text, b' ')?;
    push_number(text, number)?;
    Ok(())
}

fn push_number(text: &mut Vec<u8>, number: u64) -> Result<(), OutOfMemory>
    ensures ok { OnOk result (text.new.items ≡ text.old.items ++ decimal number) }
    ensures err { IfErr result (λ e. asked e ≤ length (decimal number)) }
{
    let mut digits = Buffer::new();
    append(text, digits.format(number).as_bytes())?;
    Ok(())
}
