//! `dump [--hash-offset BYTES] [--json] [--pin ROOT] HASH`
ghost use Rattle.command_line.specs.FormatOptions.{option_texts, text_of, texts_of};
ghost use Rattle.command_line.specs.Invocations.{dump};
ghost use Rattle.command_line.specs.Misuses.{ReadsValue};
ghost use Rattle.command_line.specs.Reading.{ReadsAs};
ghost use Rattle.command_line.specs.words.Dump.{dump_form, dump_said};

use crate::fault::WordsFault;
use crate::invocation::Invocation;
use crate::misuse::{Cause, Misuse};
use crate::option_words::OptionWords;
use crate::positional::{no_more, positional};
use crate::values::{offset_of, root_said};
use tree_shape::Digest;

/// How a superblock is printed: a line each, as a JSON object, or as the pin of a root hash with its values.
#[derive(Clone, Copy)]
pub enum DumpForm {
    Lines,
    Object,
    Pin(Digest),
}

/// A superblock is printed.
#[derive(Drop)]
pub struct DumpWords<'a> {
    pub hash_path: &'a str,
    pub hash_offset: u64,
    pub form: DumpForm,
}

/// Returns `dump` with its arguments, `[--hash-offset BYTES] [--json] [--pin ROOT] HASH`.
///
/// # Errors
///
/// `Usage` if HASH is missing, an argument is surplus, the value of an option is invalid, or `--json` and `--pin` are given.
#[tactic(auto, unfolding(crate::specs::words::Dump::dump_said))]
pub fn dump_of<'a>(
    options: &OptionWords<'a>,
    words: &[&'a str],
) -> Result<Invocation<'a>, WordsFault<'a>>
    ensures { ReadsAs dump (dump_said (option_texts options.now) (texts_of words.now)) result }
{
    let (hash_path, words) = positional("HASH", words)?;
    no_more(words)?;
    let form = dump_form(options.pin, options.json)?;
    let hash_offset = offset_of("--hash-offset", options.hash_offset)?;
    Ok(Invocation::Dump(DumpWords {
        hash_path,
        hash_offset,
        form,
    }))
}

// The form, by `--pin ROOT` and `--json`, of which at most one is given.
#[tactic(auto, unfolding(crate::specs::words::Dump::dump_form))]
fn dump_form<'a>(root: Option<&'a str>, json: bool) -> Result<DumpForm, Misuse<'a>>
    ensures { ReadsValue (λ form. form) (dump_form (text_of root.entry) json) result }
{
    match (root, json) {
        (None, false) => Ok(DumpForm::Lines),
        (None, true) => Ok(DumpForm::Object),
        (Some(_), true) => Err(Misuse::new("--json", Cause::WithPin)),
        (Some(word), false) => {
            let root = root_said("--pin", word)?;
            Ok(DumpForm::Pin(root))
        }
    }
}
