//! Reads the words after the program's name.
ghost use Rattle.std.specs.Prelude.{◌≡◌, map, string_bytes, Ok, Err, IfOk, IfErr};
ghost use Rattle.command_line.specs.CommandWords.{IsMisuse};
ghost use Rattle.command_parser.specs.CommandLines.{is_behind_dashes, line_invoked, line_record, line_said};
ghost use Rattle.command_parser.specs.Memory.{IsMemoryEnd};

use crate::grammar::matches_of;
use crate::option_words::option_words;
use command_line::{Cause, Invocation, Misuse, OptionWords, WordsFault, invocation_of, options_of};
use std::alloc::Global;

/// A command, and the values of its options.
#[derive(Drop)]
pub struct CommandLine<'a> {
    pub invocation: Invocation<'a>,
    pub options: OptionWords<'a>,
}

/// Returns the command that the arguments invoke, with its options. Those that describe an image have valid values.
///
/// # Errors
///
/// - `Usage` with the misused argument, if the arguments are no command or an option has no valid value.
/// - `NoMemory` if clap ran out of memory, or another allocation was refused.
pub fn parse<'a>(alloc: Global, words: &'a [String]) -> Result<CommandLine<'a>, WordsFault<'a>>
    ensures ok { IfOk result (λ line. line_said (map string_bytes words.now) ≡ Ok (line_record line)) }
    ensures err { IfErr result (IsMisuse (λ misuse. line_said (map string_bytes words.now) ≡ Err misuse)) }
    ensures memory { IfErr result (IsMemoryEnd (map string_bytes words.now)) }
{
    let line = invoked_line(alloc, words)?;
    match options_of(alloc, &line.options) {
        Ok(_) => Ok(line),
        Err(fault) => Err(fault),
    }
}

// The command that the arguments invoke, with options whose values may be invalid.
fn invoked_line<'a>(alloc: Global, words: &'a [String]) -> Result<CommandLine<'a>, WordsFault<'a>>
    ensures ok { IfOk result (λ line. line_invoked (map string_bytes words.now) ≡ Ok (line_record line)) }
    ensures err { IfErr result (IsMisuse (λ misuse. line_invoked (map string_bytes words.now) ≡ Err misuse)) }
    ensures memory { IfErr result (IsMemoryEnd (map string_bytes words.now)) }
{
    let matches = matches_of(alloc, words)?;
    let Some((name, found)) = matches.subcommand() else {
        return Err(WordsFault::Usage(Misuse::new("", Cause::Unread)));
    };
    let options = option_words(found);
    let positional = found.get_strs("words").unwrap_or(&[]);
    let behind_dashes = is_behind_dashes(words, positional.len());
    match invocation_of(alloc, name.as_bytes(), &options, positional, behind_dashes) {
        Ok(invocation) => Ok(CommandLine {
            invocation,
            options,
        }),
        Err(fault) => Err(fault),
    }
}

// Whether `--` is right before the last words, of which there are so many.
#[tactic(auto, unfolding(crate::specs::CommandLines::is_behind_dashes))]
fn is_behind_dashes(words: &[String], behind: usize) -> bool
    ensures { result ≡ is_behind_dashes (map string_bytes words.now) behind }
{
    if behind >= words.len() {
        return false;
    }
    let word = words[words.len() - behind - 1].as_str();
    word.as_bytes() == b"--".as_slice()
}
