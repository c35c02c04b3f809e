//! The copies of an image.
ghost use Rattle.std.specs.Prelude.{◌≡◌, map, IfOk, IfErr};
ghost use Rattle.allocation.specs.Asked.{asked};
ghost use Rattle.command_line.specs.CommandWords.{RefusesWords};
ghost use Rattle.command_line.specs.FormatOptions.{texts_of};
ghost use Rattle.command_line.specs.ImageCopies.{AreCopies, copies_and_last, copies_in_pairs, copies_of, image_copy_record, one_file, said_copies};

use crate::fault::WordsFault;
use crate::misuse::{Cause, Misuse};
use allocation::{OutOfMemory, push};
use std::alloc::Global;

/// The paths of a copy's data and of its hashes, which are the same if both are in one file.
#[derive(Clone, Copy)]
pub struct ImageCopy<'a> {
    pub data_path: &'a str,
    pub hash_path: &'a str,
}

/// Returns the copies of an image with these paths. If its data and hashes have the same path, each word is the path of a copy;
/// otherwise two words are, first that of its data and then that of its hashes.
///
/// # Errors
///
/// - `Usage` of `HASHCOPY` if the last copy lacks its second path.
/// - `NoMemory` if an allocation was refused.
#[tactic(auto, unfolding(crate::specs::ImageCopies::copies_of))]
pub fn copies_of<'a>(
    alloc: Global,
    data_path: &str,
    hash_path: &str,
    words: &[&'a str],
) -> Result<Vec<ImageCopy<'a>>, WordsFault<'a>>
    ensures ok { IfOk result (λ v. AreCopies (copies_of data_path.now hash_path.now (texts_of words.now)) v.items) }
    ensures err { IfErr result (RefusesWords (said_copies (copies_of data_path.now hash_path.now (texts_of words.now)))) }
{
    if data_path.as_bytes() == hash_path.as_bytes() {
        let copies = copies_in_one_file(alloc, words)?;
        return Ok(copies);
    }
    copies_in_pairs(alloc, words)
}

/// Returns the copies with these paths, two words each, and `last` after them.
///
/// # Errors
///
/// - `Usage` of `HASHCOPY` if the last of these copies lacks its second path.
/// - `NoMemory` if an allocation was refused.
#[tactic(auto, unfolding(crate::specs::ImageCopies::copies_and_last))]
pub(crate) fn copies_and_last<'a>(
    alloc: Global,
    last: ImageCopy<'a>,
    words: &[&'a str],
) -> Result<Vec<ImageCopy<'a>>, WordsFault<'a>>
    ensures ok { IfOk result (λ v. AreCopies (copies_and_last (image_copy_record last.entry) (texts_of words.now)) v.items) }
    ensures err { IfErr result (RefusesWords (said_copies (copies_and_last (image_copy_record last.entry) (texts_of words.now)))) }
{
    match copies_in_pairs(alloc, words) {
        Ok(copies) => {
            let mut all = copies;
            push(&mut all, last)?;
            Ok(all)
        }
        Err(fault) => Err(fault),
    }
}

fn copies_in_one_file<'a>(
    alloc: Global,
    words: &[&'a str],
) -> Result<Vec<ImageCopy<'a>>, OutOfMemory>
    ensures ok { IfOk result (λ copies. map image_copy_record copies.items ≡ map one_file (texts_of words.now)) }
    ensures err { IfErr result (λ e. asked e ≡ 1) }
{
    let mut copies = Vec::new(alloc);
    'words: for word in words {
        let copy = ImageCopy {
            data_path: word,
            hash_path: word,
        };
        push(&mut copies, copy)?;
    }
    Ok(copies)
}

fn copies_in_pairs<'a>(
    alloc: Global,
    words: &[&'a str],
) -> Result<Vec<ImageCopy<'a>>, WordsFault<'a>>
    ensures ok { IfOk result (λ v. AreCopies (copies_in_pairs (texts_of words.now)) v.items) }
    ensures err { IfErr result (RefusesWords (said_copies (copies_in_pairs (texts_of words.now)))) }
{
    let mut copies = Vec::new(alloc);
    let mut rest = words;
    'pairs: while let [data_path, hash_path, more @ ..] = rest {
        let copy = ImageCopy {
            data_path,
            hash_path,
        };
        push(&mut copies, copy)?;
        rest = more;
    }
    if rest.is_empty() {
        return Ok(copies);
    }
    Err(WordsFault::Usage(Misuse::new("HASHCOPY", Cause::Missing)))
}
