//! `format [--no-superblock | --pin FILE | --root-hash-file FILE] [OPTIONS] DATA HASH`
ghost use Rattle.command_line.specs.Misuses.{ReadsValue};
ghost use Rattle.command_line.specs.Invocations.{format};
ghost use Rattle.command_line.specs.Reading.{ReadsAs};
ghost use Rattle.command_line.specs.FormatOptions.{option_texts, texts_of};
ghost use Rattle.command_line.specs.words.Format.{format_record, format_said};

use crate::fault::WordsFault;
use crate::invocation::Invocation;
use crate::misuse::{Cause, Misuse, refuse_if};
use crate::option_words::OptionWords;
use crate::positional::{no_more, positional};
use crate::root_file::{RootFile, root_choice_of};
use crate::values::offset_of;

/// A verity image or, with `no_superblock`, a tree alone is made of what `options_of` reads. If there is a file, the pin or the
/// root hash is written to it.
#[derive(Drop)]
pub struct FormatWords<'a> {
    pub data_path: &'a str,
    pub hash_path: &'a str,
    pub hash_offset: u64,
    pub no_superblock: bool,
    pub file: Option<RootFile<'a>>,
    pub grow: bool,
    pub progress: bool,
}

/// Returns `format` with its arguments, `[--no-superblock | --pin FILE | --root-hash-file FILE] [OPTIONS] DATA HASH`.
///
/// # Errors
///
/// `Usage` if `format_words` refuses the arguments.
pub fn format_of<'a>(
    options: &OptionWords<'a>,
    words: &[&'a str],
) -> Result<Invocation<'a>, WordsFault<'a>>
    ensures { ReadsAs format (format_said (option_texts options.now) (texts_of words.now)) result }
{
    let format = format_words(options, words)?;
    Ok(Invocation::Format(format))
}

/// Returns the arguments of `format` as its record, instead of an invocation.
///
/// # Errors
///
/// - `WithPin` of `--root-hash-file` if `--pin` is given too, or `FilePath` of the one that is given.
/// - `Missing` of `DATA` or `HASH`, or `Surplus` of a further argument.
/// - `WithNoSuperblock` of `--uuid`, which only a superblock holds, or `Offset` of `--hash-offset`.
#[tactic(auto, unfolding(crate::specs::words::Format::format_said))]
pub fn format_words<'a>(
    options: &OptionWords<'a>,
    words: &[&'a str],
) -> Result<FormatWords<'a>, Misuse<'a>>
    ensures { ReadsValue format_record (format_said (option_texts options.now) (texts_of words.now)) result }
{
    let file = root_choice_of(options.pin, options.root_hash_file)?;
    let (data_path, words) = positional("DATA", words)?;
    let (hash_path, words) = positional("HASH", words)?;
    no_more(words)?;
    let bare = options.no_superblock;
    refuse_if(
        bare && options.uuid.is_some(),
        "--uuid",
        Cause::WithNoSuperblock,
    )?;
    let hash_offset = offset_of("--hash-offset", options.hash_offset)?;
    Ok(FormatWords {
        data_path,
        hash_path,
        hash_offset,
        no_superblock: options.no_superblock,
        file,
        grow: options.grow,
        progress: options.progress,
    })
}
