//! What is printed of arguments that are no command.
ghost use Rattle.std.specs.Prelude.{◌≡◌, map, option_map, string_bytes};
ghost use Rattle.command_line.specs.FormatOptions.{text_of};
ghost use Rattle.program_io.specs.Counted.{Writes};
ghost use Rattle.manual_pages.specs.Commands.{command_record};
ghost use Rattle.manual_pages.specs.UsageErrors.{argument_text, arguments_error, command_error, explanation, first_command, misuse_text, name_error, named_misuse, named_text, no_arguments_text, no_command_text, no_misuse_text, option_text, page_text, page_wanted, reason_text, usage_error, usage_text};

use crate::cause::cause_text;
use crate::command::{Command, command_named};
use crate::help::{asks_version, help_page};
use crate::page::print_page;
use crate::version::print_version;
use command_line::{Cause, Misuse};
use io_fault_text::say_path;
use program_io::{Counted, WriteFault};
use std::io::Write;

/// Prints which argument is wrong and why, how its command is called, and which page says more: three lines at most. An argument
/// is printed as a path is. If the arguments ask for help or for the version, it prints that page or the version instead.
///
/// # Errors
///
/// `WriteFault` if the writer failed.
pub fn print_usage_error<W: Write>(
    errors: &mut Counted<W>,
    words: &[String],
    misuse: Option<Misuse<'_>>,
) -> Result<(), WriteFault>
    ensures { Writes W.contents errors.old errors.new (explanation (map string_bytes words.now) misuse.entry) result }
{
    if asks_version(words) {
        return print_version(errors);
    }
    let command = first_command(words);
    match help_page(words) {
        Some(page) => print_page(errors, page),
        None => say_error(errors, words, misuse, command),
    }
}

// The command that the first argument names.
fn first_command(words: &[String]) -> Option<Command>
    ensures { option_map command_record result ≡ first_command (map string_bytes words.now) }
{
    match words {
        [name, ..] => command_named(name.as_bytes()).copied(),
        [] => None,
    }
}

fn say_error<W: Write>(
    errors: &mut Counted<W>,
    words: &[String],
    misuse: Option<Misuse<'_>>,
    command: Option<Command>,
) -> Result<(), WriteFault>
    ensures { Writes W.contents errors.old errors.new (usage_error (map string_bytes words.now) misuse.entry (option_map command_record command)) result }
{
    match (page_wanted(words), misuse) {
        (Some(name), None) => say_no_command(errors, name),
        (Some(_), Some(misuse)) => say_arguments(errors, words, Some(misuse), command),
        (None, misuse) => say_arguments(errors, words, misuse, command),
    }
}

// The command whose page `manual` is to print.
fn page_wanted(words: &[String]) -> Option<&str>
    ensures { text_of result ≡ page_wanted (map string_bytes words.now) }
{
    let [name, command] = words else {
        return None;
    };
    if name.as_bytes() == b"manual".as_slice() {
        return Some(command.as_str());
    }
    None
}

fn say_arguments<W: Write>(
    errors: &mut Counted<W>,
    words: &[String],
    misuse: Option<Misuse<'_>>,
    command: Option<Command>,
) -> Result<(), WriteFault>
    ensures { Writes W.contents errors.old errors.new (arguments_error (map string_bytes words.now) misuse.entry (option_map command_record command)) result }
{
    let [name, ..] = words else {
        return say_no_arguments(errors);
    };
    match command {
        Some(command) => say_of_command(errors, command, misuse),
        None => say_no_command(errors, name.as_str()),
    }
}

#[tactic(auto, unfolding(crate::specs::UsageErrors::no_arguments_text))]
fn say_no_arguments<W: Write>(errors: &mut Counted<W>) -> Result<(), WriteFault>
    ensures { Writes W.contents errors.old errors.new no_arguments_text result }
{
    errors.put(b"dmstack: a command is wanted; `dmstack manual` names them\n")
}

fn say_no_command<W: Write>(errors: &mut Counted<W>, name: &str) -> Result<(), WriteFault>
    ensures { Writes W.contents errors.old errors.new (name_error name.now) result }
{
    say_no_command_of(errors)?;
    say_path(errors, name)?;
    say_page(errors)
}

#[tactic(auto, unfolding(crate::specs::UsageErrors::no_command_text))]
fn say_no_command_of<W: Write>(errors: &mut Counted<W>) -> Result<(), WriteFault>
    ensures { Writes W.contents errors.old errors.new no_command_text result }
{
    errors.put(b"dmstack: there is no command ")
}

#[tactic(auto, unfolding(crate::specs::UsageErrors::page_text))]
fn say_page<W: Write>(errors: &mut Counted<W>) -> Result<(), WriteFault>
    ensures { Writes W.contents errors.old errors.new page_text result }
{
    errors.put(b"; `dmstack manual` names them\n")
}

// The argument that is wrong and why, then how the command is called.
fn say_of_command<W: Write>(
    errors: &mut Counted<W>,
    command: Command,
    misuse: Option<Misuse<'_>>,
) -> Result<(), WriteFault>
    ensures { Writes W.contents errors.old errors.new (command_error (command_record command) misuse.entry) result }
{
    match named_misuse(misuse) {
        Some(misuse) => say_misuse(errors, command.name, misuse)?,
        None => say_no_misuse(errors, command.name)?,
    }
    say_usage(errors, command.name, command.usage)
}

// The misuse, if it names an argument.
fn named_misuse<'a>(misuse: Option<Misuse<'a>>) -> Option<Misuse<'a>>
    ensures { result ≡ named_misuse misuse.entry }
{
    match misuse {
        Some(misuse) if !misuse.argument.is_empty() => Some(misuse),
        _ => None,
    }
}

fn say_misuse<W: Write>(
    errors: &mut Counted<W>,
    name: &str,
    misuse: Misuse<'_>,
) -> Result<(), WriteFault>
    ensures { Writes W.contents errors.old errors.new (misuse_text name.now misuse.entry.argument.now misuse.entry.cause) result }
{
    match misuse.cause {
        Cause::Unknown => say_option(errors, name, misuse.argument),
        cause => say_argument(errors, name, misuse.argument, cause),
    }
}

// An option that the command doesn't have.
#[tactic(auto, unfolding(crate::specs::UsageErrors::option_text))]
fn say_option<W: Write>(errors: &mut Counted<W>, name: &str, option: &str) -> Result<(), WriteFault>
    ensures { Writes W.contents errors.old errors.new (option_text name.now option.now) result }
{
    errors.print(format_args!("dmstack: {name} has no option "))?;
    say_path(errors, option)?;
    errors.put(b"\n")
}

fn say_argument<W: Write>(
    errors: &mut Counted<W>,
    name: &str,
    argument: &str,
    cause: Cause,
) -> Result<(), WriteFault>
    ensures { Writes W.contents errors.old errors.new (argument_text name.now argument.now cause) result }
{
    say_command(errors, name)?;
    say_path(errors, argument)?;
    say_cause(errors, cause_text(cause))
}

#[tactic(auto, unfolding(crate::specs::UsageErrors::named_text))]
fn say_command<W: Write>(errors: &mut Counted<W>, name: &str) -> Result<(), WriteFault>
    ensures { Writes W.contents errors.old errors.new (named_text name.now) result }
{
    errors.print(format_args!("dmstack: {name}: "))
}

#[tactic(auto, unfolding(crate::specs::UsageErrors::reason_text))]
fn say_cause<W: Write>(errors: &mut Counted<W>, cause: &str) -> Result<(), WriteFault>
    ensures { Writes W.contents errors.old errors.new (reason_text cause.now) result }
{
    errors.print(format_args!(": {cause}\n"))
}

// That the arguments aren't those of the command.
#[tactic(auto, unfolding(crate::specs::UsageErrors::no_misuse_text))]
fn say_no_misuse<W: Write>(errors: &mut Counted<W>, name: &str) -> Result<(), WriteFault>
    ensures { Writes W.contents errors.old errors.new (no_misuse_text name.now) result }
{
    errors.print(format_args!("dmstack: these aren't the arguments of {name}\n"))
}

#[tactic(auto, unfolding(crate::specs::UsageErrors::usage_text))]
fn say_usage<W: Write>(errors: &mut Counted<W>, name: &str, usage: &str) -> Result<(), WriteFault>
    ensures { Writes W.contents errors.old errors.new (usage_text name.now usage.now) result }
{
    errors.print(format_args!("usage: {usage}\n`dmstack manual {name}` says more\n"))
}
