//! `read [--cache N] STACK NAME FIRST COUNT BINDING...`
ghost use Rattle.command_line.specs.Invocations.{read};
ghost use Rattle.command_line.specs.Reading.{ReadsAs};
ghost use Rattle.command_line.specs.FormatOptions.{option_texts, texts_of};
ghost use Rattle.command_line.specs.words.Read.{read_said};

use crate::binding_words::bindings_of;
use crate::bindings::Binding;
use crate::fault::WordsFault;
use crate::invocation::{Invocation, Sectors};
use crate::option_words::OptionWords;
use crate::positional::{number_at, positional};
use crate::values::cache_of;
use std::alloc::Global;

/// Sectors of a device are printed.
#[derive(Drop)]
pub struct ReadWords<'a> {
    pub cache: u32,
    pub stack: &'a str,
    pub sectors: Sectors<'a>,
    pub bindings: Vec<Binding<'a>>,
}

/// Returns `read` with its arguments, `[--cache N] STACK NAME FIRST COUNT BINDING...`. FIRST and COUNT are in sectors.
///
/// # Errors
///
/// - `Usage` if a positional argument before the bindings is missing, FIRST or COUNT isn't a decimal number, the value of an
///   option is invalid, or a further argument is no binding.
/// - `NoMemory` if an allocation was refused.
#[tactic(auto, unfolding(crate::specs::words::Read::read_said))]
pub fn read_of<'a>(
    alloc: Global,
    options: &OptionWords<'a>,
    words: &[&'a str],
) -> Result<Invocation<'a>, WordsFault<'a>>
    ensures { ReadsAs read (read_said (option_texts options.now) (texts_of words.now)) result }
{
    let (stack, words) = positional("STACK", words)?;
    let (name, words) = positional("NAME", words)?;
    let (first, words) = number_at("FIRST", words)?;
    let (count, words) = number_at("COUNT", words)?;
    let cache = cache_of(options.cache)?;
    let bindings = bindings_of(alloc, words)?;
    Ok(Invocation::Read(ReadWords {
        cache,
        stack,
        sectors: Sectors { name, first, count },
        bindings,
    }))
}
