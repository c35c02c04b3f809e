//! How many times lost sectors are read again.
ghost use Rattle.command_line.specs.FormatOptions.{text_of};
ghost use Rattle.command_line.specs.Misuses.{ReadsValue};
ghost use Rattle.command_line.specs.Values.{retries_said};

use crate::misuse::{Cause, Misuse};
use table_text::number;

/// Returns how many times lost sectors are read again: 0 without a word.
///
/// # Errors
///
/// `Number` of `--retries` if the word isn't a decimal number below 2^64.
#[tactic(auto, unfolding(crate::specs::Values::retries_said))]
pub fn retries_of<'a>(word: Option<&'a str>) -> Result<u64, Misuse<'a>>
    ensures { ReadsValue (λ n. n) (retries_said (text_of word.entry)) result }
{
    let Some(word) = word else {
        return Ok(0);
    };
    match number(word.as_bytes()) {
        Some(retries) => Ok(retries),
        None => Err(Misuse::new("--retries", Cause::Number)),
    }
}
