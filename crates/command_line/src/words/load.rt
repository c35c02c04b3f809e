//! `load [--json | --tree] [--linux] STACK BINDING...`
ghost use Rattle.command_line.specs.Invocations.{load};
ghost use Rattle.command_line.specs.Reading.{ReadsAs};
ghost use Rattle.command_line.specs.FormatOptions.{option_texts, texts_of};
ghost use Rattle.command_line.specs.words.Load.{load_said};

use crate::binding_words::bindings_of;
use crate::bindings::Binding;
use crate::fault::WordsFault;
use crate::invocation::Invocation;
use crate::list_form::ListForm;
use crate::option_words::OptionWords;
use crate::positional::positional;
use crate::values::list_form;
use std::alloc::Global;

/// The devices of a stack are printed: with `linux` only if Linux would load them too, and read the same.
#[derive(Drop)]
pub struct LoadWords<'a> {
    pub stack: &'a str,
    pub bindings: Vec<Binding<'a>>,
    pub form: ListForm,
    pub linux: bool,
}

/// Returns `load` with its arguments, `[--json | --tree] [--linux] STACK BINDING...`.
///
/// # Errors
///
/// - `Usage` if STACK is missing, `--json` and `--tree` are given, or a further argument is no binding.
/// - `NoMemory` if an allocation was refused.
#[tactic(auto, unfolding(crate::specs::words::Load::load_said))]
pub fn load_of<'a>(
    alloc: Global,
    options: &OptionWords<'a>,
    words: &[&'a str],
) -> Result<Invocation<'a>, WordsFault<'a>>
    ensures { ReadsAs load (load_said (option_texts options.now) (texts_of words.now)) result }
{
    let (stack, words) = positional("STACK", words)?;
    let form = list_form(options.json, options.tree)?;
    let bindings = bindings_of(alloc, words)?;
    Ok(Invocation::Load(LoadWords {
        stack,
        bindings,
        form,
        linux: options.linux,
    }))
}
