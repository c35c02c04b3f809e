//! `diff [OPTIONS] HASH1 [ROOT1] HASH2 [ROOT2]`
ghost use Rattle.command_line.specs.Invocations.{diff};
ghost use Rattle.command_line.specs.Reading.{ReadsAs};
ghost use Rattle.command_line.specs.FormatOptions.{option_texts, texts_of};
ghost use Rattle.command_line.specs.Misuses.{ReadsValue};
ghost use Rattle.command_line.specs.Values.{root_or_pin_record};
ghost use Rattle.command_line.specs.words.Diff.{both_stated, diff_record, diff_said, new_root_said, old_root_said};

use crate::fault::WordsFault;
use crate::invocation::Invocation;
use crate::misuse::{Cause, Misuse, refuse_if};
use crate::option_words::{OptionWords, tree_stated};
use crate::positional::{no_more, positional, word_or_file};
use crate::values::{RootOrPin, offset_of, root_or_pin_said, runs_of};

/// Two hash trees are compared. Each is that of its superblock or, without superblocks, both are those which `options_of` reads.
#[derive(Drop)]
pub struct DiffWords<'a> {
    pub old_path: &'a str,
    pub old_offset: u64,
    pub old_root: RootOrPin<'a>,
    pub new_path: &'a str,
    pub new_offset: u64,
    pub new_root: RootOrPin<'a>,
    pub no_superblock: bool,
    pub runs: Option<u64>,
    pub all: bool,
    pub json: bool,
}

/// Returns `diff` with its arguments, `[--no-superblock --blocks N --salt HEX] [--all] [--runs N] [--json] [--old-hash-offset
/// BYTES] [--hash-offset BYTES] [--old-root-hash-file FILE | --old-pin FILE] [--root-hash-file FILE | --pin FILE] HASH1 [ROOT1]
/// HASH2 [ROOT2]`. A file replaces its image's root hash.
///
/// # Errors
///
/// `Usage` if a positional argument is missing or surplus, the value of an option is invalid, a root hash is invalid, or an
/// image has both a root hash file and a pin.
pub fn diff_of<'a>(
    options: &OptionWords<'a>,
    words: &[&'a str],
) -> Result<Invocation<'a>, WordsFault<'a>>
    ensures { ReadsAs diff (diff_said (option_texts options.now) (texts_of words.now)) result }
{
    match diff_words(options, words) {
        Ok(diff) => Ok(Invocation::Diff(diff)),
        Err(misuse) => Err(WordsFault::Usage(misuse)),
    }
}

// Reads the arguments of `diff`, and returns its record instead of an invocation.
#[tactic(auto, unfolding(crate::specs::words::Diff::diff_said))]
fn diff_words<'a>(options: &OptionWords<'a>, words: &[&'a str]) -> Result<DiffWords<'a>, Misuse<'a>>
    ensures { ReadsValue diff_record (diff_said (option_texts options.now) (texts_of words.now)) result }
{
    let (old_path, words) = positional("HASH1", words)?;
    let (old_word, words) = word_or_file(
        options.old_pin,
        options.old_root_hash_file,
        "ROOT1",
        words,
    )?;
    let (new_path, words) = positional("HASH2", words)?;
    let (new_word, words) = word_or_file(options.pin, options.root_hash_file, "ROOT2", words)?;
    no_more(words)?;
    both_stated(options)?;
    let old_offset = offset_of("--old-hash-offset", options.old_hash_offset)?;
    let new_offset = offset_of("--hash-offset", options.hash_offset)?;
    match old_root_of(options, old_word) {
        Ok(old_root) => match new_root_of(options, new_word) {
            Ok(new_root) => {
                let runs = runs_of(options.runs)?;
                Ok(DiffWords {
                    old_path,
                    old_offset,
                    old_root,
                    new_path,
                    new_offset,
                    new_root,
                    no_superblock: options.no_superblock,
                    runs,
                    all: options.all,
                    json: options.json,
                })
            }
            Err(misuse) => Err(misuse),
        },
        Err(misuse) => Err(misuse),
    }
}

// Refuses the options of the trees whose values the superblocks hold. Without superblocks the salt and the number of data blocks
// are needed, and there is no pin.
#[tactic(auto, unfolding(crate::specs::words::Diff::both_stated))]
fn both_stated<'a>(options: &OptionWords<'a>) -> Result<(), Misuse<'a>>
    ensures { ReadsValue (λ none. none) (both_stated (option_texts options.now)) result }
{
    tree_stated(options)?;
    let bare = options.no_superblock;
    refuse_if(bare && options.blocks.is_none(), "--blocks", Cause::Missing)?;
    refuse_if(
        bare && options.old_pin.is_some(),
        "--no-superblock",
        Cause::WithOldPin,
    )
}

// The root of the first tree.
#[tactic(auto, unfolding(crate::specs::words::Diff::old_root_said))]
fn old_root_of<'a>(options: &OptionWords<'a>, word: &'a str) -> Result<RootOrPin<'a>, Misuse<'a>>
    ensures { ReadsValue root_or_pin_record (old_root_said (option_texts options.now) word.now) result }
{
    let file = options.old_root_hash_file;
    let both = options.old_pin.is_some() && file.is_some();
    refuse_if(both, "--old-root-hash-file", Cause::WithOldPin)?;
    root_or_pin_said("--old-pin", options.old_pin, file, "ROOT1", word)
}

// The root of the second tree.
#[tactic(auto, unfolding(crate::specs::words::Diff::new_root_said))]
fn new_root_of<'a>(options: &OptionWords<'a>, word: &'a str) -> Result<RootOrPin<'a>, Misuse<'a>>
    ensures { ReadsValue root_or_pin_record (new_root_said (option_texts options.now) word.now) result }
{
    let file = options.root_hash_file;
    let both = options.pin.is_some() && file.is_some();
    refuse_if(both, "--root-hash-file", Cause::WithPin)?;
    root_or_pin_said("--pin", options.pin, file, "ROOT2", word)
}
