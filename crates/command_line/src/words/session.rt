//! `session [--cache N] BINDING...`
ghost use Rattle.command_line.specs.Invocations.{session};
ghost use Rattle.command_line.specs.Reading.{ReadsAs};
ghost use Rattle.command_line.specs.FormatOptions.{option_texts, texts_of};
ghost use Rattle.command_line.specs.words.Session.{session_said};

use crate::binding_words::bindings_of;
use crate::bindings::Binding;
use crate::fault::WordsFault;
use crate::invocation::Invocation;
use crate::option_words::OptionWords;
use crate::values::cache_of;
use std::alloc::Global;

/// The lines of the input are served.
#[derive(Drop)]
pub struct SessionWords<'a> {
    pub cache: u32,
    pub bindings: Vec<Binding<'a>>,
}

/// Returns `session` with its arguments, `[--cache N] BINDING...`.
///
/// # Errors
///
/// - `Usage` if `--cache` is invalid or an argument is no binding.
/// - `NoMemory` if an allocation was refused.
#[tactic(auto, unfolding(crate::specs::words::Session::session_said))]
pub fn session_of<'a>(
    alloc: Global,
    options: &OptionWords<'a>,
    words: &[&'a str],
) -> Result<Invocation<'a>, WordsFault<'a>>
    ensures { ReadsAs session (session_said (option_texts options.now) (texts_of words.now)) result }
{
    let cache = cache_of(options.cache)?;
    let bindings = bindings_of(alloc, words)?;
    Ok(Invocation::Session(SessionWords { cache, bindings }))
}
