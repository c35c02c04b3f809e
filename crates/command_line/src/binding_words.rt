//! The bindings of a command line.
ghost use Rattle.std.specs.Prelude.{IfOk, IfErr};
ghost use Rattle.command_line.specs.BindingWords.{AreBindings, bindings_of};
ghost use Rattle.command_line.specs.CommandWords.{RefusesWords};
ghost use Rattle.command_line.specs.FormatOptions.{texts_of};

use crate::bindings::{Binding, binding_of};
use crate::fault::WordsFault;
use crate::misuse::{Cause, Misuse};
use allocation::push;
use std::alloc::Global;

/// Returns the bindings, one for each word.
///
/// # Errors
///
/// - `Usage` with the first word that is no binding.
/// - `NoMemory` if an allocation was refused.
pub fn bindings_of<'a>(alloc: Global, words: &[&'a str]) -> Result<Vec<Binding<'a>>, WordsFault<'a>>
    ensures ok { IfOk result (λ v. AreBindings (bindings_of (texts_of words.now)) v.items) }
    ensures err { IfErr result (RefusesWords (bindings_of (texts_of words.now))) }
{
    let mut bindings = Vec::new(alloc);
    'words: for word in words {
        match binding_of(word) {
            Some(binding) => push(&mut bindings, binding)?,
            None => return Err(WordsFault::Usage(Misuse::new(word, Cause::Binding))),
        }
    }
    Ok(bindings)
}
