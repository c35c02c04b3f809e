//! `update --pin FILE [OPTIONS] DATA HASH NEWDATA NEWHASH [DATACOPY HASHCOPY]..`
ghost use Rattle.command_line.specs.FormatOptions.{option_texts, texts_of};
ghost use Rattle.command_line.specs.Invocations.{update};
ghost use Rattle.command_line.specs.Reading.{ReadsAs};
ghost use Rattle.command_line.specs.words.Update.{update_said};

use crate::fault::WordsFault;
use crate::image_copies::{ImageCopy, copies_and_last};
use crate::invocation::Invocation;
use crate::option_words::OptionWords;
use crate::positional::positional;
use crate::values::pin_of;
use std::alloc::Global;

/// A verity image is brought to the release of a pin. The copies are tried in their order; the last one is the release, whose hash
/// image is under `release_hash`. With `no_index` no list is made of where blocks are.
#[derive(Drop)]
pub struct UpdateWords<'a> {
    pub data_path: &'a str,
    pub hash_path: &'a str,
    pub release_hash: &'a str,
    pub pin: &'a str,
    pub copies: Vec<ImageCopy<'a>>,
    pub no_index: bool,
    pub progress: bool,
    pub json: bool,
}

/// Returns `update` with its arguments, `[--no-index] [--progress] [--json] --pin FILE DATA HASH NEWDATA NEWHASH
/// [DATACOPY HASHCOPY]..`.
///
/// # Errors
///
/// - `Usage` if DATA, HASH, NEWDATA, NEWHASH, `--pin` or the last copy's second path is missing, or the path of the pin is empty or
///   `-`.
/// - `NoMemory` if an allocation was refused.
#[tactic(auto, unfolding(crate::specs::words::Update::update_said))]
pub fn update_of<'a>(
    alloc: Global,
    options: &OptionWords<'a>,
    words: &[&'a str],
) -> Result<Invocation<'a>, WordsFault<'a>>
    ensures { ReadsAs update (update_said (option_texts options.now) (texts_of words.now)) result }
{
    let (data_path, words) = positional("DATA", words)?;
    let (hash_path, words) = positional("HASH", words)?;
    let (new_data, words) = positional("NEWDATA", words)?;
    let (new_hash, words) = positional("NEWHASH", words)?;
    let pin = pin_of(options.pin)?;
    let release = ImageCopy {
        data_path: new_data,
        hash_path: new_hash,
    };
    let copies = copies_and_last(alloc, release, words)?;
    Ok(Invocation::Update(UpdateWords {
        data_path,
        hash_path,
        release_hash: new_hash,
        pin,
        copies,
        no_index: options.no_index,
        progress: options.progress,
        json: options.json,
    }))
}
