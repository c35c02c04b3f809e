//! Printing map files.
ghost use Rattle.std.specs.Prelude.{◌≡◌, ◌+◌, ◌++◌, ◌≤◌, ◌^◌, [], ◌∷◌, IfErr, IfOk, Ok, OnErr, OnOk, decimal, length};
ghost use Rattle.allocation.specs.Asked.{asked};
ghost use Rattle.allocation.specs.Refusal.{IsOutOfMemory};
ghost use Rattle.rescue_map.specs.Kinds.{kind_of, mark_text};
ghost use Rattle.rescue_map.specs.Maps.{marks};
ghost use Rattle.rescue_map.specs.MapText.{map_of, map_run_text, map_text, status_text, tail_text, told_map};
ghost use Rattle.rescue_map.specs.Tails.{IsTail};

use crate::kind::MapKind;
use crate::map::{Map, Run};
use crate::stage::run_status;
use crate::status::letter;
use crate::tail::Tail;
use crate::totals::is_complete;
use allocation::{OutOfMemory, append, copied, push};
use itoa::Buffer;
use std::alloc::Global;

/// Returns the text of a map: the mark of a scan, a status line, a line for each run, in bytes, and one for the tail, if there is any. The
/// status of the whole is finished if no sector remains to be read, with `no_scrape` also if some are unscraped, and else copying.
///
/// # Errors
///
/// `OutOfMemory` if an allocation of at most 40 bytes fails.
pub fn print_map(
    alloc: Global,
    kind: MapKind,
    map: &Map,
    tail: Tail,
    no_scrape: bool,
) -> Result<Vec<u8>, OutOfMemory>
    ensures text { IfOk result (λ text. text.items ≡ map_text kind no_scrape map.now tail) }
    ensures kind { IfOk result (λ text. kind_of text.items ≡ kind) }
    ensures reads_back { IfOk result (λ text. IsTail tail → map_of (length (marks map.now)) text.items ≡ Ok (told_map map.now tail)) }
    ensures err { OnErr result (IsOutOfMemory 40) }
{
    let complete = is_complete(map, no_scrape);
    let mut text = copied(alloc, mark_line(kind))?;
    append(&mut text, status_line(complete))?;
    let mut at = 0;
    for run in map.runs() {
        print_run(&mut text, at, *run)?;
        at += run.count;
    }
    print_tail(&mut text, at, tail)?;
    Ok(text)
}

fn mark_line(kind: MapKind) -> &'static [u8]
    ensures value { result.now ≡ mark_text kind }
    ensures short { length result.now ≤ 40 }
{
    match kind {
        MapKind::Copy => b"",
        MapKind::Scan => b"# dmstack scan\n",
    }
}

fn status_line(complete: bool) -> &'static [u8]
    ensures value { result.now ≡ status_text complete ++ 10 ∷ [] }
    ensures short { length result.now ≤ 40 }
{
    if complete { b"0 +\n" } else { b"0 ?\n" }
}

fn print_run(text: &mut Vec<u8>, at: u64, run: Run) -> Result<(), OutOfMemory>
    requires { at + run.count ≤ 2 ^ 54 }
    ensures ok { OnOk result (text.new.items ≡ text.old.items ++ map_run_text at run) }
    ensures err { IfErr result (λ e. asked e ≤ 40) }
{
    push_number(text, at * 512)?;
    push(text, b' ')?;
    push_number(text, run.count * 512)?;
    push(text, b' ')?;
    append(text, letter(run_status(run)))?;
    push(text, b'\n')?;
    Ok(())
}

// Appends the line of the bytes after the last whole sector.
fn print_tail(text: &mut Vec<u8>, at: u64, tail: Tail) -> Result<(), OutOfMemory>
    requires { at ≤ 2 ^ 54 }
    ensures ok { OnOk result (text.new.items ≡ text.old.items ++ tail_text at tail) }
    ensures err { IfErr result (λ e. asked e ≤ 40) }
{
    if tail.count == 0 {
        return Ok(());
    }
    push_number(text, at * 512)?;
    push(text, b' ')?;
    push_number(text, tail.count)?;
    push(text, b' ')?;
    append(text, letter(tail.status))?;
    push(text, b'\n')?;
    Ok(())
}

fn push_number(text: &mut Vec<u8>, number: u64) -> Result<(), OutOfMemory>
    ensures ok { OnOk result (text.new.items ≡ text.old.items ++ decimal number) }
    ensures err { IfErr result (λ e. asked e ≤ 40) }
{
    let mut digits = Buffer::new();
    append(text, digits.format(number).as_bytes())?;
    Ok(())
}
