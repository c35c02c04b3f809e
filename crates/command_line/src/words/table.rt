//! `table [--hash-offset BYTES] [--name NAME] [--root-hash-file FILE | --pin FILE] HASH [ROOT] DATANAME HASHNAME`
ghost use Rattle.command_line.specs.Misuses.{ReadsValue};
ghost use Rattle.command_line.specs.Invocations.{table};
ghost use Rattle.command_line.specs.Reading.{ReadsAs};
ghost use Rattle.command_line.specs.FormatOptions.{option_texts, texts_of};
ghost use Rattle.command_line.specs.words.Table.{table_record, table_said};

use crate::fault::WordsFault;
use crate::invocation::Invocation;
use crate::misuse::Misuse;
use crate::option_words::{OptionWords, table_stated};
use crate::positional::{device_names, positional, root_or_pin_first};
use crate::values::{RootOrPin, name_of, offset_of};

/// The table line of a verity image is printed, or a whole entry with a name.
#[derive(Drop)]
pub struct TableWords<'a> {
    pub hash_path: &'a str,
    pub root: RootOrPin<'a>,
    pub data_name: &'a str,
    pub hash_name: &'a str,
    pub hash_offset: u64,
    pub name: Option<&'a str>,
}

/// Returns `table` with its arguments, `[--hash-offset BYTES] [--name NAME] [--root-hash-file FILE | --pin FILE] HASH [ROOT]
/// DATANAME HASHNAME`.
///
/// # Errors
///
/// `Usage` with the misuse of `table_words`.
pub fn table_of<'a>(
    options: &OptionWords<'a>,
    words: &[&'a str],
) -> Result<Invocation<'a>, WordsFault<'a>>
    ensures { ReadsAs table (table_said (option_texts options.now) (texts_of words.now)) result }
{
    match table_words(options, words) {
        Ok(table) => Ok(Invocation::Table(table)),
        Err(misuse) => Err(WordsFault::Usage(misuse)),
    }
}

/// Returns the arguments of `table` as its record, instead of an invocation.
///
/// # Errors
///
/// - `Missing` of `HASH`.
/// - The misuse of `table_stated`, of `root_or_pin_first` or of `device_names`.
/// - `Offset` of `--hash-offset` or `MappedName` of `--name` if its value is invalid.
#[tactic(auto, unfolding(crate::specs::words::Table::table_said))]
pub fn table_words<'a>(
    options: &OptionWords<'a>,
    words: &[&'a str],
) -> Result<TableWords<'a>, Misuse<'a>>
    ensures { ReadsValue table_record (table_said (option_texts options.now) (texts_of words.now)) result }
{
    let (hash_path, words) = positional("HASH", words)?;
    table_stated(options)?;
    let hash_offset = offset_of("--hash-offset", options.hash_offset)?;
    let name = name_of(options.name)?;
    match root_or_pin_first(options.pin, options.root_hash_file, words) {
        Ok((root, behind)) => {
            let (data_name, hash_name) = device_names(behind)?;
            Ok(TableWords {
                hash_path,
                root,
                data_name,
                hash_name,
                hash_offset,
                name,
            })
        }
        Err(misuse) => Err(misuse),
    }
}
