//! `cat [--cache N] [--progress] [--first N] [--count N] STACK NAME BINDING...`
ghost use Rattle.command_line.specs.Invocations.{cat};
ghost use Rattle.command_line.specs.Reading.{ReadsAs};
ghost use Rattle.command_line.specs.FormatOptions.{option_texts, texts_of};
ghost use Rattle.command_line.specs.words.Cat.{cat_said};

use crate::binding_words::bindings_of;
use crate::bindings::Binding;
use crate::fault::WordsFault;
use crate::invocation::Invocation;
use crate::option_words::OptionWords;
use crate::positional::positional;
use crate::values::{cache_of, count_of, first_of};
use std::alloc::Global;

/// The bytes of a device are written to standard output.
#[derive(Drop)]
pub struct CatWords<'a> {
    pub cache: u32,
    pub first: u64,
    pub count: Option<u64>,
    pub stack: &'a str,
    pub name: &'a str,
    pub bindings: Vec<Binding<'a>>,
    pub progress: bool,
}

/// Returns `cat` with its arguments, `[--cache N] [--progress] [--first N] [--count N] STACK NAME BINDING...`. `--first` and
/// `--count` are in sectors.
///
/// # Errors
///
/// - `Usage` if STACK or NAME is missing, the value of an option is invalid, or a further argument is no binding.
/// - `NoMemory` if an allocation was refused.
#[tactic(auto, unfolding(crate::specs::words::Cat::cat_said))]
pub fn cat_of<'a>(
    alloc: Global,
    options: &OptionWords<'a>,
    words: &[&'a str],
) -> Result<Invocation<'a>, WordsFault<'a>>
    ensures { ReadsAs cat (cat_said (option_texts options.now) (texts_of words.now)) result }
{
    let (stack, words) = positional("STACK", words)?;
    let (name, words) = positional("NAME", words)?;
    let cache = cache_of(options.cache)?;
    let first = first_of(options.first)?;
    let count = count_of(options.count)?;
    let bindings = bindings_of(alloc, words)?;
    Ok(Invocation::Cat(CatWords {
        cache,
        first,
        count,
        stack,
        name,
        bindings,
        progress: options.progress,
    }))
}
