//! `write [--cache N] STACK NAME FIRST SOURCE BINDING...`
ghost use Rattle.command_line.specs.Invocations.{write};
ghost use Rattle.command_line.specs.Reading.{ReadsAs};
ghost use Rattle.command_line.specs.FormatOptions.{option_texts, texts_of};
ghost use Rattle.command_line.specs.words.Write.{write_said};

use crate::binding_words::bindings_of;
use crate::bindings::Binding;
use crate::fault::WordsFault;
use crate::invocation::{Invocation, Transfer};
use crate::misuse::{Cause, refuse_if};
use crate::option_words::OptionWords;
use crate::positional::{number_at, positional};
use crate::values::cache_of;
use crate::words::store::is_input;
use std::alloc::Global;

/// The bytes of a file are written to a device by one request.
#[derive(Drop)]
pub struct WriteWords<'a> {
    pub cache: u32,
    pub stack: &'a str,
    pub transfer: Transfer<'a>,
    pub bindings: Vec<Binding<'a>>,
}

/// Returns `write` with its arguments, `[--cache N] STACK NAME FIRST SOURCE BINDING...`. FIRST is in sectors.
///
/// # Errors
///
/// - `Usage` if a positional argument before the bindings is missing, FIRST isn't a decimal number, STACK and SOURCE are both the
///   standard input, the value of an option is invalid, or a further argument is no binding.
/// - `NoMemory` if an allocation was refused.
#[tactic(auto, unfolding(crate::specs::words::Write::write_said))]
pub fn write_of<'a>(
    alloc: Global,
    options: &OptionWords<'a>,
    words: &[&'a str],
) -> Result<Invocation<'a>, WordsFault<'a>>
    ensures { ReadsAs write (write_said (option_texts options.now) (texts_of words.now)) result }
{
    let (stack, words) = positional("STACK", words)?;
    let (name, words) = positional("NAME", words)?;
    let (first, words) = number_at("FIRST", words)?;
    let (source, words) = positional("SOURCE", words)?;
    refuse_if(
        is_input(stack) && is_input(source),
        "SOURCE",
        Cause::StandardInput,
    )?;
    let cache = cache_of(options.cache)?;
    let bindings = bindings_of(alloc, words)?;
    Ok(Invocation::Write(WriteWords {
        cache,
        stack,
        transfer: Transfer {
            name,
            first,
            source,
        },
        bindings,
    }))
}
