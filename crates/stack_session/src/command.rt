//! The command of a session's line.
ghost use Rattle.std.specs.Prelude.{◌≡◌, ◌≤◌, length, option_map, IfSome};
ghost use Rattle.stack_session.specs.Accesses.{IsSmall, access_record};
ghost use Rattle.stack_session.specs.Commands.{IsWithinLimits, access_in, session_access, after_word, hex_byte, line_command, command_record, command_with, cost, lone_command, moved, only_word, session_read, remove, step, submit, table, ticket_of, write_count, session_write};
ghost use Rattle.stack_session.specs.Commands.{run};

use crate::access::{Access, Filling};
use crate::verb::{Verb, verb_of};
use table_text::{Words, number, white_len, word_len};

// One more than a write may have, so that the queue refuses such a write; it isn't a usage error.
const MOST_ASKED: u64 = 2049;

/// The command of a line.
#[derive(Clone, Copy, Debug, PartialEq, Eq)]
pub enum Command<'a> {
    /// The line has no words.
    Nothing,
    /// A stack text to load.
    Load(&'a [u8]),
    /// Sectors to read or write at once.
    Run(Access<'a>),
    /// Sectors to read or write step by step.
    Submit(Access<'a>),
    /// The ticket of the request whose next piece is to be served.
    Step(u64),
    /// The device of that name is to be removed.
    Remove(&'a [u8]),
    /// Prints the size, the depth and the costs of the device of that name.
    Cost(&'a [u8]),
    /// Prints the table of the device of that name.
    Table(&'a [u8]),
    /// Prints how many sectors the backing devices have transferred.
    Moved,
    /// The line is no command.
    Usage,
}

/// Parses a line: `load TEXT`, in which the text is the rest of the line, `read NAME FIRST COUNT`, `write NAME FIRST COUNT BB`,
/// `submit` and one of these two, `step T`, `remove NAME`, `cost NAME`, `table NAME` or `moved`.
pub fn command_of(line: &[u8]) -> Command<'_>
    ensures value { command_record result ≡ line_command line.now }
    ensures short { IsWithinLimits (length line.now) result }
{
    let mut words = Words::new(line);
    let Some(word) = words.next_word() else {
        return Command::Nothing;
    };
    match verb_of(word) {
        Some(Verb::Load) => Command::Load(after_word(line)),
        Some(Verb::Read) => run_of(read_of(words)),
        Some(Verb::Write) => run_of(write_of(words)),
        Some(Verb::Submit) => submit_of(access_of(words)),
        Some(Verb::Step) => step_of(words),
        Some(Verb::Remove) => remove_of(words),
        Some(Verb::Cost) => cost_of(words),
        Some(Verb::Table) => table_of(words),
        Some(Verb::Moved) => moved_of(words),
        None => Command::Usage,
    }
}

fn run_of(access: Option<Access<'_>>) -> Command<'_>
    requires { IfSome access IsSmall }
    ensures value { command_record result ≡ command_with run (option_map access_record access.entry) }
    ensures short { IsWithinLimits 0 result }
{
    match access {
        Some(access) => Command::Run(access),
        None => Command::Usage,
    }
}

fn submit_of(access: Option<Access<'_>>) -> Command<'_>
    requires { IfSome access IsSmall }
    ensures value { command_record result ≡ command_with submit (option_map access_record access.entry) }
    ensures short { IsWithinLimits 0 result }
{
    match access {
        Some(access) => Command::Submit(access),
        None => Command::Usage,
    }
}

// `read NAME FIRST COUNT` or `write NAME FIRST COUNT BB`
fn access_of(mut words: Words<'_>) -> Option<Access<'_>>
    ensures value { option_map access_record result ≡ session_access words.entry }
    ensures small { IfSome result IsSmall }
{
    let word = words.next_word()?;
    match verb_of(word) {
        Some(Verb::Read) => read_of(words),
        Some(Verb::Write) => write_of(words),
        _ => None,
    }
}

// `NAME FIRST COUNT`
fn read_of(mut words: Words<'_>) -> Option<Access<'_>>
    ensures value { option_map access_record result ≡ session_read words.entry }
    ensures small { IfSome result IsSmall }
{
    let (Some(name), Some(first), Some(count), None) = (
        words.next_word(),
        words.next_word(),
        words.next_word(),
        words.next_word(),
    ) else {
        return None;
    };
    let (Some(first), Some(count)) = (number(first), number(count)) else {
        return None;
    };
    Some(Access::Read { name, first, count })
}

// `NAME FIRST COUNT BB`
fn write_of(mut words: Words<'_>) -> Option<Access<'_>>
    ensures value { option_map access_record result ≡ session_write words.entry }
    ensures small { IfSome result IsSmall }
{
    let (Some(name), Some(first), Some(count), Some(byte), None) = (
        words.next_word(),
        words.next_word(),
        words.next_word(),
        words.next_word(),
        words.next_word(),
    ) else {
        return None;
    };
    let (Some(first), Some(count), Some(byte)) = (number(first), write_count(count), byte_of(byte))
    else {
        return None;
    };
    Some(Access::Write(Filling {
        name,
        first,
        count,
        byte,
    }))
}

// The number of sectors to write.
fn write_count(word: &[u8]) -> Option<u64>
    ensures value { result ≡ write_count word.now }
    ensures most { IfSome result (λ count. count ≤ 2049) }
{
    let count = number(word)?;
    if count > MOST_ASKED {
        return None;
    }
    Some(count)
}

// The byte of two hexadecimal digits.
fn byte_of(word: &[u8]) -> Option<u8>
    ensures { result ≡ hex_byte word.now }
{
    let mut byte = [0u8; 1];
    match hex::decode_to_slice(word, &mut byte) {
        Ok(()) => Some(byte[0]),
        Err(_) => None,
    }
}

// `T`
fn step_of(words: Words<'_>) -> Command<'_>
    ensures value { command_record result ≡ command_with step (ticket_of words.entry) }
    ensures short { IsWithinLimits 0 result }
{
    match ticket_of(words) {
        Some(ticket) => Command::Step(ticket),
        None => Command::Usage,
    }
}

fn ticket_of(words: Words<'_>) -> Option<u64>
    ensures { result ≡ ticket_of words.entry }
{
    number(only_word(words)?)
}

// `NAME`
fn remove_of(words: Words<'_>) -> Command<'_>
    ensures value { command_record result ≡ command_with remove (only_word words.entry) }
    ensures short { IsWithinLimits 0 result }
{
    match only_word(words) {
        Some(name) => Command::Remove(name),
        None => Command::Usage,
    }
}

// `NAME`
fn cost_of(words: Words<'_>) -> Command<'_>
    ensures value { command_record result ≡ command_with cost (only_word words.entry) }
    ensures short { IsWithinLimits 0 result }
{
    match only_word(words) {
        Some(name) => Command::Cost(name),
        None => Command::Usage,
    }
}

// `NAME`
fn table_of(words: Words<'_>) -> Command<'_>
    ensures value { command_record result ≡ command_with table (only_word words.entry) }
    ensures short { IsWithinLimits 0 result }
{
    match only_word(words) {
        Some(name) => Command::Table(name),
        None => Command::Usage,
    }
}

// No further word.
fn moved_of(mut words: Words<'_>) -> Command<'_>
    ensures value { command_record result ≡ lone_command moved words.entry }
    ensures short { IsWithinLimits 0 result }
{
    match words.next_word() {
        None => Command::Moved,
        Some(_) => Command::Usage,
    }
}

// The only word that is left.
fn only_word<'a>(mut words: Words<'a>) -> Option<&'a [u8]>
    ensures { option_map (λ word. word.now) result ≡ only_word words.entry }
{
    let word = words.next_word()?;
    match words.next_word() {
        None => Some(word),
        Some(_) => None,
    }
}

// The rest of a line after its first word.
fn after_word(line: &[u8]) -> &[u8]
    ensures value { result.now ≡ after_word line.now }
    ensures short { length result.now ≤ length line.now }
{
    let rest = &line[white_len(line)..];
    &rest[word_len(rest)..]
}
