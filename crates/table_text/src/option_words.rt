//! Reading optional arguments.
ghost use Rattle.std.specs.Prelude.{◌≡◌, ◌&&◌, false, true, nat_le, length, not, Ok, Err, MatchResult};
ghost use Rattle.std.specs.List.{list_all, list_any};
ghost use Rattle.std.specs.Str.{bytes_eq};
ghost use Rattle.table_text.specs.Reading.{IsReading, words_of};
ghost use Rattle.dm_table.specs.Names.{most_name};
ghost use Rattle.dm_table.specs.Options.{after_option, is_one_of, has_name_of, known_at, option_name, option_names, options_at, value_of};

use crate::cut::{Words, piece_len};
use crate::line_fault::LineFault;
use crate::numbers::read_number;
use dm_table::{Name, Options, TextKind};
use std::alloc::Global;

/// Reads the number of words and the options, all among `known`, up to the end of the line. Each of `valued` is an option
/// with a value, the word after it; the values aren't returned.
pub(crate) fn read_options(
    alloc: Global,
    mut words: Words<'_>,
    known: &[&str],
    valued: &[&str],
) -> Result<Options, LineFault>
    requires { list_all (λ word. nat_le (length word) most_name) (words_of known.now) ≡ true }
    ensures { IsReading result (options_at (words_of known.now) (words_of valued.now) words.entry) }
{
    let Some(count) = words.next_word() else {
        return Ok(Options::new(alloc));
    };
    let count = read_number(count)?;
    if !words.are(count as usize) {
        return Err(LineFault::Kind(TextKind::ArgCount));
    }
    read_known(alloc, words, known, valued)
}

fn read_known(
    alloc: Global,
    mut words: Words<'_>,
    known: &[&str],
    valued: &[&str],
) -> Result<Options, LineFault>
    requires { list_all (λ word. nat_le (length word) most_name) (words_of known.now) ≡ true }
    ensures { IsReading result (known_at (words_of known.now) (option_names (words_of valued.now) false words.entry)) }
{
    let mut options = Options::new(alloc);
    'words: while let Some(word) = words.next_word() {
        if !is_new(known, &options, word) {
            return Err(LineFault::Kind(TextKind::Option));
        }
        options.push(Name::new(alloc, word)?)?;
        skip_value(&mut words, word, valued);
    }
    Ok(options)
}

/// Returns the value of the option `name`, one of `valued`. The words begin with an option.
///
/// # Errors
///
/// `Option` if the line doesn't have the option, or ends with it.
pub(crate) fn value_of<'a>(
    mut words: Words<'a>,
    name: &[u8],
    valued: &[&str],
) -> Result<&'a [u8], TextKind>
    ensures { MatchResult result
        (λ value. value_of (words_of valued.now) name.now false words.entry ≡ Ok value.now)
        (λ kind. value_of (words_of valued.now) name.now false words.entry ≡ Err kind) }
{
    'words: while let Some(word) = words.next_word() {
        if word == name {
            return words.next_word().ok_or(TextKind::Option);
        }
        skip_value(&mut words, word, valued);
    }
    Err(TextKind::Option)
}

// Removes the value of the option `word` if it has one.
fn skip_value(words: &mut Words<'_>, word: &[u8], valued: &[&str])
    ensures { words.new ≡ after_option (words_of valued.now) word.now words.old }
{
    if is_known(valued, word) {
        words.next_word();
    }
}

// Returns whether the word is a known option with a name that differs from those of the options so far.
fn is_new(known: &[&str], options: &Options, word: &[u8]) -> bool
    ensures { result ≡ (is_one_of word.now (words_of known.now) && not (has_name_of word.now options.now)) }
{
    is_known(known, word) && !is_named(options, word)
}

fn is_known(known: &[&str], word: &[u8]) -> bool
    ensures { result ≡ list_any (λ one. bytes_eq one.now word.now) known.now }
{
    known.iter().any(|one| one.as_bytes() == word)
}

fn is_named(options: &Options, word: &[u8]) -> bool
    ensures { result ≡ has_name_of word.now options.now }
{
    let name = option_name(word);
    options
        .as_slice()
        .iter()
        .any(|one| option_name(one.as_slice()) == name)
}

fn option_name(word: &[u8]) -> &[u8]
    ensures { result.now ≡ option_name word.now }
{
    &word[..piece_len(word, b':')]
}
