//! `manual [COMMAND]` and `version`
ghost use Rattle.command_line.specs.Invocations.{manual, version_said};
ghost use Rattle.command_line.specs.Reading.{ReadsCommand, ReadsAs};
ghost use Rattle.command_line.specs.FormatOptions.{texts_of};
ghost use Rattle.command_line.specs.words.Manual.{manual_said};

use crate::fault::WordsFault;
use crate::invocation::Invocation;
use crate::positional::no_more;

/// Returns `manual`: the page of the program, or of one of its commands.
///
/// # Errors
///
/// `Usage` if more than one argument is given.
#[tactic(auto, unfolding(crate::specs::words::Manual::manual_said))]
pub fn manual_of<'a>(words: &[&'a str]) -> Result<Invocation<'a>, WordsFault<'a>>
    ensures { ReadsAs manual (manual_said (texts_of words.now)) result }
{
    let [command, rest @ ..] = words else {
        return Ok(Invocation::Manual(None));
    };
    no_more(rest)?;
    Ok(Invocation::Manual(Some(command)))
}

/// Returns `version`.
///
/// # Errors
///
/// `Usage` if an argument is given.
pub fn version_of<'a>(words: &[&'a str]) -> Result<Invocation<'a>, WordsFault<'a>>
    ensures { ReadsCommand (version_said (texts_of words.now)) result }
{
    no_more(words)?;
    Ok(Invocation::Version)
}
