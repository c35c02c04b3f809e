//! `store [--cache N] [--progress] [--first N] STACK NAME SOURCE BINDING...`
ghost use Rattle.std.specs.Prelude.{◌≡◌, codes};
ghost use Rattle.std.specs.Str.{bytes_eq};
ghost use Rattle.command_line.specs.Invocations.{store};
ghost use Rattle.command_line.specs.Reading.{ReadsAs};
ghost use Rattle.command_line.specs.FormatOptions.{option_texts, texts_of};
ghost use Rattle.command_line.specs.words.Store.{store_said};

use crate::binding_words::bindings_of;
use crate::bindings::Binding;
use crate::fault::WordsFault;
use crate::invocation::Invocation;
use crate::misuse::{Cause, refuse_if};
use crate::option_words::OptionWords;
use crate::positional::positional;
use crate::values::{cache_of, first_of};
use std::alloc::Global;

/// The bytes of a file are written to a device.
#[derive(Drop)]
pub struct StoreWords<'a> {
    pub cache: u32,
    pub first: u64,
    pub stack: &'a str,
    pub name: &'a str,
    pub source: &'a str,
    pub bindings: Vec<Binding<'a>>,
    pub progress: bool,
}

/// Whether it is the standard input.
pub(crate) fn is_input(word: &str) -> bool
    ensures { result ≡ bytes_eq word.now (codes "-") }
{
    word.as_bytes() == b"-".as_slice()
}

/// Returns `store` with its arguments, `[--cache N] [--progress] [--first N] STACK NAME SOURCE BINDING...`. `--first` is in
/// sectors.
///
/// # Errors
///
/// - `Usage` if STACK, NAME or SOURCE is missing, STACK and SOURCE are both the standard input, the value of an option is
///   invalid, or a further argument is no binding.
/// - `NoMemory` if an allocation was refused.
#[tactic(auto, unfolding(crate::specs::words::Store::store_said))]
pub fn store_of<'a>(
    alloc: Global,
    options: &OptionWords<'a>,
    words: &[&'a str],
) -> Result<Invocation<'a>, WordsFault<'a>>
    ensures { ReadsAs store (store_said (option_texts options.now) (texts_of words.now)) result }
{
    let (stack, words) = positional("STACK", words)?;
    let (name, words) = positional("NAME", words)?;
    let (source, words) = positional("SOURCE", words)?;
    refuse_if(
        is_input(stack) && is_input(source),
        "SOURCE",
        Cause::StandardInput,
    )?;
    let cache = cache_of(options.cache)?;
    let first = first_of(options.first)?;
    let bindings = bindings_of(alloc, words)?;
    Ok(Invocation::Store(StoreWords {
        cache,
        first,
        stack,
        name,
        source,
        bindings,
        progress: options.progress,
    }))
}
