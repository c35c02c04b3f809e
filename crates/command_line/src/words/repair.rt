//! `repair [--no-superblock --salt HEX] [OPTIONS] DATA HASH [ROOT] [COPY..]`
ghost use Rattle.command_line.specs.Invocations.{repair};
ghost use Rattle.command_line.specs.Reading.{ReadsAs};
ghost use Rattle.command_line.specs.FormatOptions.{option_texts, texts_of};
ghost use Rattle.command_line.specs.words.Repair.{repair_said};

use crate::fault::WordsFault;
use crate::fec_file::{FecFile, fec_choice_of};
use crate::image_copies::{ImageCopy, copies_of};
use crate::invocation::Invocation;
use crate::option_words::{OptionWords, tree_stated};
use crate::positional::{positional, root_or_pin_first};
use crate::values::{RootOrPin, offset_of};
use std::alloc::Global;

/// A verity image is repaired from copies of it and by parity, or only looked at where `check` is said. Its tree is that of the
/// superblock or, without one, that which `options_of` reads.
#[derive(Drop)]
pub struct RepairWords<'a> {
    pub data_path: &'a str,
    pub hash_path: &'a str,
    pub root: RootOrPin<'a>,
    pub hash_offset: u64,
    pub no_superblock: bool,
    pub check: bool,
    pub fec: Option<FecFile<'a>>,
    pub copies: Vec<ImageCopy<'a>>,
}

/// Returns `repair` with its arguments, `[--no-superblock --salt HEX] [--check] [--fec FILE [--fec-roots N]] [--hash-offset
/// BYTES] [--root-hash-file FILE | --pin FILE] DATA HASH [ROOT] [COPY..]`.
///
/// # Errors
///
/// - `Usage` if DATA, HASH, ROOT or the last copy's second path is missing, a value is invalid, `--salt` is missing beside
///   `--no-superblock`, a value of the superblock is given without it, `--fec-roots` is given without `--fec`, or a root hash
///   file and a pin are given.
/// - `NoMemory` if an allocation was refused.
#[tactic(auto, unfolding(crate::specs::words::Repair::repair_said))]
pub fn repair_of<'a>(
    alloc: Global,
    options: &OptionWords<'a>,
    words: &[&'a str],
) -> Result<Invocation<'a>, WordsFault<'a>>
    ensures { ReadsAs repair (repair_said (option_texts options.now) (texts_of words.now)) result }
{
    let (data_path, words) = positional("DATA", words)?;
    let (hash_path, words) = positional("HASH", words)?;
    tree_stated(options)?;
    let hash_offset = offset_of("--hash-offset", options.hash_offset)?;
    let fec = fec_choice_of(options.fec, options.fec_roots)?;
    match root_or_pin_first(options.pin, options.root_hash_file, words) {
        Ok((root, rest)) => {
            let copies = copies_of(alloc, data_path, hash_path, rest)?;
            Ok(Invocation::Repair(RepairWords {
                data_path,
                hash_path,
                root,
                hash_offset,
                no_superblock: options.no_superblock,
                check: options.check,
                fec,
                copies,
            }))
        }
        Err(misuse) => Err(WordsFault::Usage(misuse)),
    }
}
