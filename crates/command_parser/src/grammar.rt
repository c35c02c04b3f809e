//! The command line as it is described to clap.
ghost use Rattle.std.specs.Prelude.{false, ◌≡◌, [], map, string_bytes, IfOk, IfErr};
ghost use Rattle.clap.specs.Faults.{fault_of};
ghost use Rattle.clap.specs.Simple.{app_of, subcommand_of, subcommand_rows_of};
ghost use Rattle.clap.specs.Walk.{rule_of};
ghost use Rattle.clap.specs.declared.builder.command.Command.TheViews.{out-Command as fields_of};
ghost use Rattle.command_line.specs.CommandWords.{IsMisuse};
ghost use Rattle.command_parser.specs.CommandLines.{IsUnread};
ghost use Rattle.command_parser.specs.Grammar.{command_app, command_text, grammar, option_rule, option_text, positional, program, with_commands, with_options};
ghost use Rattle.command_parser.specs.Memory.{IsMemoryEnd};

use crate::option_rows::OptionRow;
use crate::rows::{CommandRow, command_rows};
use crate::unread::unread_argument;
use clap::error::ErrorKind;
use clap::{Arg, ArgAction, ArgMatches, Command};
use command_line::WordsFault;
use std::alloc::{AllocError, Global};

/// Returns the command that the arguments name, with its options and its positional words.
///
/// # Errors
///
/// `Usage` if the arguments aren't a command, or `NoMemory` if clap ran out of memory.
pub fn matches_of<'a>(alloc: Global, words: &'a [String]) -> Result<ArgMatches<'a>, WordsFault<'a>>
    ensures taken { IfOk result (λ found. fault_of grammar (map string_bytes words.now) ≡ []) }
    ensures ok { IfOk result (λ found. subcommand_rows_of found ≡ subcommand_of grammar (map string_bytes words.now)) }
    ensures err { IfErr result (IsMisuse (IsUnread (map string_bytes words.now))) }
    ensures memory { IfErr result (IsMemoryEnd (map string_bytes words.now)) }
{
    let Ok(command) = all_commands(alloc) else {
        return Err(WordsFault::NoMemory);
    };
    match command.try_get_matches_from(words) {
        Ok(matches) => Ok(matches),
        Err(error) => match error.kind() {
            ErrorKind::OutOfMemory => Err(WordsFault::NoMemory),
            _ => Err(WordsFault::Usage(unread_argument(words))),
        },
    }
}

// The commands with their options. The first positional word ends the options of its command.
fn all_commands<'a>(alloc: Global) -> Result<Command<'a>, AllocError>
    ensures { IfOk result (λ c. app_of c ≡ grammar) }
{
    with_commands(alloc, program(alloc), command_rows())
}

// A command is wanted, and there is no help.
fn program<'a>(alloc: Global) -> Command<'a>
    ensures { app_of result ≡ program }
{
    Command::new(alloc, "dmstack")
        .no_binary_name(true)
        .disable_help_flag(true)
        .disable_help_subcommand(true)
        .disable_version_flag(true)
        .subcommand_required(true)
}

// Adds commands.
fn with_commands<'a>(
    alloc: Global,
    command: Command<'a>,
    rows: &[CommandRow],
) -> Result<Command<'a>, AllocError>
    ensures { IfOk result (λ c. app_of c ≡ with_commands (app_of command.entry) (map command_text rows.now)) }
{
    let mut all = command;
    'rows: for row in rows {
        all = all.subcommand(command_of(alloc, *row)?)?;
    }
    Ok(all)
}

// A command of positional words with its options.
fn command_of<'a>(alloc: Global, row: CommandRow) -> Result<Command<'a>, AllocError>
    ensures app { IfOk result (λ c. app_of c ≡ command_app (command_text row)) }
    ensures local { IfOk result (λ c. (fields_of c).has_globals ≡ false) }
{
    with_options(alloc, positional(alloc, row.name)?, row.options)
}

// Adds options.
fn with_options<'a>(
    alloc: Global,
    command: Command<'a>,
    rows: &[OptionRow],
) -> Result<Command<'a>, AllocError>
    ensures app { IfOk result (λ c. app_of c ≡ with_options (app_of command.entry) (map option_text rows.now)) }
    ensures local { IfOk result (λ c. (fields_of c).has_globals ≡ (fields_of command.entry).has_globals) }
{
    let mut all = command;
    'rows: for row in rows {
        all = all.arg(option_of(alloc, *row)?)?;
    }
    Ok(all)
}

// A command of positional words.
fn positional<'a>(alloc: Global, name: &'a str) -> Result<Command<'a>, AllocError>
    ensures app { IfOk result (λ c. app_of c ≡ positional name.entry.now) }
    ensures local { IfOk result (λ c. (fields_of c).has_globals ≡ false) }
{
    let words = Arg::new(alloc, "words")
        .num_args(0..)
        .action(ArgAction::Append)
        .trailing_var_arg(true);
    Command::new(alloc, name).disable_help_flag(true).arg(words)
}

// An option with its other names, which has a value or none.
fn option_of<'a>(alloc: Global, row: OptionRow) -> Result<Arg<'a>, AllocError>
    ensures rule { IfOk result (λ r. rule_of r ≡ option_rule (option_text row)) }
    ensures local { IfOk result (λ r. r.global ≡ false) }
{
    let action = if row.has_value {
        ArgAction::Set
    } else {
        ArgAction::SetTrue
    };
    Arg::new(alloc, row.name)
        .long(row.name)
        .action(action)
        .aliases(row.others)
}
