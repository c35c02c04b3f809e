//! `nbd [--cache N] STACK NAME BINDING...`
ghost use Rattle.command_line.specs.Invocations.{nbd};
ghost use Rattle.command_line.specs.Reading.{ReadsAs};
ghost use Rattle.command_line.specs.FormatOptions.{option_texts, texts_of};
ghost use Rattle.command_line.specs.words.Nbd.{nbd_said};

use crate::binding_words::bindings_of;
use crate::bindings::Binding;
use crate::fault::WordsFault;
use crate::invocation::{Invocation, ServedDevice};
use crate::misuse::{Cause, refuse_if};
use crate::option_words::OptionWords;
use crate::positional::positional;
use crate::values::cache_of;
use crate::words::store::is_input;
use std::alloc::Global;

/// A device of a stack is served to a client.
#[derive(Drop)]
pub struct NbdWords<'a> {
    pub device: ServedDevice<'a>,
    pub bindings: Vec<Binding<'a>>,
}

/// Returns `nbd` with its arguments, `[--cache N] STACK NAME BINDING...`.
///
/// # Errors
///
/// - `Usage` if STACK or NAME is missing, STACK is the standard input, which is the client's, the value of an option is
///   invalid, or a further argument is no binding.
/// - `NoMemory` if an allocation was refused.
#[tactic(auto, unfolding(crate::specs::words::Nbd::nbd_said))]
pub fn nbd_of<'a>(
    alloc: Global,
    options: &OptionWords<'a>,
    words: &[&'a str],
) -> Result<Invocation<'a>, WordsFault<'a>>
    ensures { ReadsAs nbd (nbd_said (option_texts options.now) (texts_of words.now)) result }
{
    let (stack, words) = positional("STACK", words)?;
    let (name, words) = positional("NAME", words)?;
    refuse_if(is_input(stack), "STACK", Cause::StandardInput)?;
    let cache = cache_of(options.cache)?;
    let bindings = bindings_of(alloc, words)?;
    Ok(Invocation::Nbd(NbdWords {
        device: ServedDevice { cache, stack, name },
        bindings,
    }))
}
