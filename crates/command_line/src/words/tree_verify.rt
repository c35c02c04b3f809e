//! `verify --no-superblock --salt HEX [--all [--json | --chart]] [OPTIONS] DATA HASH [ROOT]`
ghost use Rattle.command_line.specs.Invocations.{verify_tree};
ghost use Rattle.command_line.specs.Reading.{ReadsAs};
ghost use Rattle.command_line.specs.FormatOptions.{option_texts, texts_of};
ghost use Rattle.command_line.specs.words.TreeVerify.{tree_verify_said};

use crate::fault::WordsFault;
use crate::invocation::Invocation;
use crate::misuse::{Cause, refuse_if};
use crate::option_words::OptionWords;
use crate::positional::{positional, root_alone};
use crate::values::{RootWord, offset_of, report_form};
use charts::ReportForm;

/// A tree without a superblock is checked, which is what `options_of` reads.
#[derive(Drop)]
pub struct TreeVerifyWords<'a> {
    pub data_path: &'a str,
    pub hash_path: &'a str,
    pub root: RootWord<'a>,
    pub hash_offset: u64,
    pub all: bool,
    pub form: ReportForm,
    pub progress: bool,
}

/// Returns `verify --no-superblock` with its arguments, `--salt HEX [--all [--json | --chart]] [OPTIONS] DATA HASH [ROOT]`.
///
/// # Errors
///
/// `Usage` if a positional argument is missing, surplus or invalid, `--salt` is missing, `--hash-offset` is invalid, or
/// `--json` or `--chart` is given without `--all` or beside the other.
#[tactic(auto, unfolding(crate::specs::words::TreeVerify::tree_verify_said))]
pub fn tree_verify_of<'a>(
    options: &OptionWords<'a>,
    words: &[&'a str],
) -> Result<Invocation<'a>, WordsFault<'a>>
    ensures { ReadsAs verify_tree (tree_verify_said (option_texts options.now) (texts_of words.now)) result }
{
    let (data_path, words) = positional("DATA", words)?;
    let (hash_path, words) = positional("HASH", words)?;
    refuse_if(options.json && !options.all, "--json", Cause::WithoutAll)?;
    refuse_if(options.chart && !options.all, "--chart", Cause::WithoutAll)?;
    let form = report_form(options.json, options.chart)?;
    refuse_if(options.salt.is_none(), "--salt", Cause::Missing)?;
    let hash_offset = offset_of("--hash-offset", options.hash_offset)?;
    match root_alone(options.root_hash_file, words) {
        Ok(root) => Ok(Invocation::VerifyTree(TreeVerifyWords {
            data_path,
            hash_path,
            root,
            hash_offset,
            all: options.all,
            form,
            progress: options.progress,
        })),
        Err(misuse) => Err(WordsFault::Usage(misuse)),
    }
}
