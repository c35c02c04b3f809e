//! `find [--json] PLACE`
ghost use Rattle.command_line.specs.FormatOptions.{option_texts, texts_of};
ghost use Rattle.command_line.specs.Invocations.{find_in_place};
ghost use Rattle.command_line.specs.Reading.{ReadsAs};
ghost use Rattle.command_line.specs.words.Find.{find_said};

use crate::fault::WordsFault;
use crate::invocation::Invocation;
use crate::option_words::OptionWords;
use crate::positional::{no_more, positional};

/// A file, a device or a part of one is searched.
#[derive(Drop)]
pub struct FindWords<'a> {
    pub place: &'a str,
    pub json: bool,
}

/// Returns `find` with its arguments, `[--json] PLACE`.
///
/// # Errors
///
/// `Usage` if PLACE is missing, or an argument is surplus.
#[tactic(auto, unfolding(crate::specs::words::Find::find_said))]
pub fn find_of<'a>(
    options: &OptionWords<'a>,
    words: &[&'a str],
) -> Result<Invocation<'a>, WordsFault<'a>>
    ensures { ReadsAs find_in_place (find_said (option_texts options.now) (texts_of words.now)) result }
{
    let (place, words) = positional("PLACE", words)?;
    no_more(words)?;
    Ok(Invocation::Find(FindWords {
        place,
        json: options.json,
    }))
}
