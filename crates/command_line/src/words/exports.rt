//! `nbd --all [--cache N] STACK BINDING...`
ghost use Rattle.command_line.specs.Invocations.{exports};
ghost use Rattle.command_line.specs.Reading.{ReadsAs};
ghost use Rattle.command_line.specs.FormatOptions.{option_texts, texts_of};
ghost use Rattle.command_line.specs.words.Exports.{exports_said, no_name};
ghost use Rattle.command_line.specs.Misuses.{ReadsValue};
ghost use Rattle.std.specs.List.{list_any};
ghost use Rattle.std.specs.Prelude.{◌≡◌, ◌==◌};

use crate::binding_words::bindings_of;
use crate::bindings::Binding;
use crate::fault::WordsFault;
use crate::invocation::Invocation;
use crate::misuse::{Cause, Misuse, refuse_if};
use crate::option_words::OptionWords;
use crate::positional::positional;
use crate::values::cache_of;
use crate::words::store::is_input;
use std::alloc::Global;

/// Each device of a stack is served to a client under its name.
#[derive(Drop)]
pub struct ExportsWords<'a> {
    pub cache: u32,
    pub stack: &'a str,
    pub bindings: Vec<Binding<'a>>,
}

// The argument after STACK is a binding, and no device's name.
fn no_name<'a>(words: &[&'a str]) -> Result<(), Misuse<'a>>
    ensures { ReadsValue (λ none. none) (no_name (texts_of words.now)) result }
{
    match words {
        [word, ..] => refuse_if(!has_equals(word.as_bytes()), word, Cause::NameWithAll),
        [] => Ok(()),
    }
}

fn has_equals(word: &[u8]) -> bool
    ensures { result ≡ list_any (λ b. b == 61) word.now }
{
    word.iter().any(|b| *b == b'=')
}

/// Returns `nbd` with its arguments, `--all [--cache N] STACK BINDING...`.
///
/// # Errors
///
/// - `Usage` if STACK is missing or the standard input, which is the client's, a device's name is given, the value of an option
///   is invalid, or a further argument is no binding.
/// - `NoMemory` if an allocation was refused.
#[tactic(auto, unfolding(crate::specs::words::Exports::exports_said))]
pub fn exports_of<'a>(
    alloc: Global,
    options: &OptionWords<'a>,
    words: &[&'a str],
) -> Result<Invocation<'a>, WordsFault<'a>>
    ensures { ReadsAs exports (exports_said (option_texts options.now) (texts_of words.now)) result }
{
    let (stack, words) = positional("STACK", words)?;
    refuse_if(is_input(stack), "STACK", Cause::StandardInput)?;
    no_name(words)?;
    let cache = cache_of(options.cache)?;
    let bindings = bindings_of(alloc, words)?;
    Ok(Invocation::Exports(ExportsWords {
        cache,
        stack,
        bindings,
    }))
}
