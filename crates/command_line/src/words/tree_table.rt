//! `table --no-superblock --blocks N --salt HEX [OPTIONS] HASH [ROOT] DATANAME HASHNAME`
ghost use Rattle.command_line.specs.Invocations.{table_tree};
ghost use Rattle.command_line.specs.Reading.{ReadsAs};
ghost use Rattle.command_line.specs.FormatOptions.{option_texts, texts_of};
ghost use Rattle.command_line.specs.words.TreeTable.{tree_table_said};

use crate::fault::WordsFault;
use crate::invocation::Invocation;
use crate::option_words::{OptionWords, tree_given};
use crate::positional::{device_names, positional, root_first};
use crate::values::{RootWord, name_of, offset_of};

/// The table line of a tree without a superblock is printed, or a whole entry with a name; `options_of` reads what it is.
#[derive(Drop)]
pub struct TreeTableWords<'a> {
    pub hash_path: &'a str,
    pub root: RootWord<'a>,
    pub data_name: &'a str,
    pub hash_name: &'a str,
    pub hash_offset: u64,
    pub name: Option<&'a str>,
}

/// Returns `table --no-superblock` with its arguments, `--blocks N --salt HEX [OPTIONS] HASH [ROOT] DATANAME HASHNAME`.
///
/// # Errors
///
/// `Usage` if a positional argument is missing, surplus or invalid, `--blocks` or `--salt` is missing, or `--hash-offset` or
/// `--name` is invalid.
#[tactic(auto, unfolding(crate::specs::words::TreeTable::tree_table_said))]
pub fn tree_table_of<'a>(
    options: &OptionWords<'a>,
    words: &[&'a str],
) -> Result<Invocation<'a>, WordsFault<'a>>
    ensures { ReadsAs table_tree (tree_table_said (option_texts options.now) (texts_of words.now)) result }
{
    let (hash_path, words) = positional("HASH", words)?;
    tree_given(options)?;
    let hash_offset = offset_of("--hash-offset", options.hash_offset)?;
    let name = name_of(options.name)?;
    match root_first(options.root_hash_file, words) {
        Ok((root, behind)) => {
            let (data_name, hash_name) = device_names(behind)?;
            Ok(Invocation::TableTree(TreeTableWords {
                hash_path,
                root,
                data_name,
                hash_name,
                hash_offset,
                name,
            }))
        }
        Err(misuse) => Err(WordsFault::Usage(misuse)),
    }
}
