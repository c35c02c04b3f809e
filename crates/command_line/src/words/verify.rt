//! `verify [--all [--json | --chart]] [--hash-offset BYTES] [--root-hash-file FILE | --pin FILE] [--progress] DATA HASH [ROOT]`
ghost use Rattle.command_line.specs.Misuses.{ReadsValue};
ghost use Rattle.command_line.specs.Invocations.{verify};
ghost use Rattle.command_line.specs.Reading.{ReadsAs};
ghost use Rattle.command_line.specs.FormatOptions.{option_texts, texts_of};
ghost use Rattle.command_line.specs.words.Verify.{verify_record, verify_said};

use crate::fault::WordsFault;
use crate::invocation::Invocation;
use crate::misuse::{Cause, Misuse, refuse_if};
use crate::option_words::{OptionWords, tree_stated};
use crate::positional::{positional, root_or_pin_alone};
use crate::values::{RootOrPin, offset_of, report_form};
use charts::ReportForm;

/// A verity image is checked.
#[derive(Drop)]
pub struct VerifyWords<'a> {
    pub data_path: &'a str,
    pub hash_path: &'a str,
    pub root: RootOrPin<'a>,
    pub hash_offset: u64,
    pub all: bool,
    pub form: ReportForm,
    pub progress: bool,
}

/// Returns `verify` with its arguments, `[--all [--json | --chart]] [--hash-offset BYTES] [--root-hash-file FILE | --pin FILE]
/// [--progress] DATA HASH [ROOT]`.
///
/// # Errors
///
/// `Usage` with the misuse of `verify_words`.
pub fn verify_of<'a>(
    options: &OptionWords<'a>,
    words: &[&'a str],
) -> Result<Invocation<'a>, WordsFault<'a>>
    ensures { ReadsAs verify (verify_said (option_texts options.now) (texts_of words.now)) result }
{
    match verify_words(options, words) {
        Ok(verify) => Ok(Invocation::Verify(verify)),
        Err(misuse) => Err(WordsFault::Usage(misuse)),
    }
}

/// Returns the arguments of `verify` as its record, instead of an invocation.
///
/// # Errors
///
/// - `Missing` of `DATA` or `HASH`.
/// - `InSuperblock` of an option whose value the superblock holds.
/// - `WithoutAll` of `--json` or `--chart` if `--all` is missing; `WithChart` of `--json` if both are given.
/// - `Offset` of `--hash-offset` if its value is invalid.
/// - The misuse of `root_or_pin_alone`.
#[tactic(auto, unfolding(crate::specs::words::Verify::verify_said))]
pub fn verify_words<'a>(
    options: &OptionWords<'a>,
    words: &[&'a str],
) -> Result<VerifyWords<'a>, Misuse<'a>>
    ensures { ReadsValue verify_record (verify_said (option_texts options.now) (texts_of words.now)) result }
{
    let (data_path, words) = positional("DATA", words)?;
    let (hash_path, words) = positional("HASH", words)?;
    tree_stated(options)?;
    refuse_if(options.json && !options.all, "--json", Cause::WithoutAll)?;
    refuse_if(options.chart && !options.all, "--chart", Cause::WithoutAll)?;
    let form = report_form(options.json, options.chart)?;
    let hash_offset = offset_of("--hash-offset", options.hash_offset)?;
    match root_or_pin_alone(options.pin, options.root_hash_file, words) {
        Ok(root) => Ok(VerifyWords {
            data_path,
            hash_path,
            root,
            hash_offset,
            all: options.all,
            form,
            progress: options.progress,
        }),
        Err(misuse) => Err(misuse),
    }
}
