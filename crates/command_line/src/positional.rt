//! The positional arguments, one after the other.
ghost use Rattle.command_line.specs.FormatOptions.{text_of, texts_of};
ghost use Rattle.command_line.specs.Misuses.{ReadsValue};
ghost use Rattle.command_line.specs.Positional.{device_at, device_names, next_number, next_word, no_more, number_at, positional, root_alone, root_first, root_or_pin_alone, root_or_pin_first, word_or_file};
ghost use Rattle.command_line.specs.Values.{root_first_record, root_or_pin_first_record, root_or_pin_record, root_record};

use crate::misuse::{Cause, Misuse, refuse_if};
use crate::values::{RootOrPin, RootWord, path_of, root_said};
use dm_table::is_device;
use table_text::number;

/// Returns the next positional argument, whose name in the usage is `name`, and the arguments after it.
///
/// # Errors
///
/// `Missing` of `name` if there is no argument.
#[tactic(auto, unfolding(crate::specs::Positional::positional))]
pub fn positional<'a, 'b>(
    name: &'a str,
    words: &'b [&'a str],
) -> Result<(&'a str, &'b [&'a str]), Misuse<'a>>
    ensures { ReadsValue next_word (positional name.now (texts_of words.now)) result }
{
    let [word, rest @ ..] = words else {
        return Err(Misuse::new(name, Cause::Missing));
    };
    Ok((word, rest))
}

/// Refuses a further positional argument.
///
/// # Errors
///
/// `Surplus` of the next argument if there is one.
#[tactic(auto, unfolding(crate::specs::Positional::no_more))]
pub fn no_more<'a>(words: &[&'a str]) -> Result<(), Misuse<'a>>
    ensures { ReadsValue (λ none. none) (no_more (texts_of words.now)) result }
{
    match words {
        [word, ..] => Err(Misuse::new(word, Cause::Surplus)),
        [] => Ok(()),
    }
}

/// Returns the next positional argument, which is a decimal number, and the arguments after it.
///
/// # Errors
///
/// `Missing` of `name` if there is no argument, or `Number` of `name` if it isn't a decimal number.
#[tactic(auto, unfolding(crate::specs::Positional::number_at))]
pub fn number_at<'a, 'b>(
    name: &'a str,
    words: &'b [&'a str],
) -> Result<(u64, &'b [&'a str]), Misuse<'a>>
    ensures { ReadsValue next_number (number_at name.now (texts_of words.now)) result }
{
    let (word, rest) = positional(name, words)?;
    match number(word.as_bytes()) {
        Some(value) => Ok((value, rest)),
        None => Err(Misuse::new(name, Cause::Number)),
    }
}

/// Returns the next positional argument, which is the device argument of a table line, and the arguments after it.
///
/// # Errors
///
/// `Missing` of `name` if there is no argument, or `DeviceName` of `name` if it isn't a device argument.
#[tactic(auto, unfolding(crate::specs::Positional::device_at))]
pub fn device_at<'a, 'b>(
    name: &'a str,
    words: &'b [&'a str],
) -> Result<(&'a str, &'b [&'a str]), Misuse<'a>>
    ensures { ReadsValue next_word (device_at name.now (texts_of words.now)) result }
{
    let (word, rest) = positional(name, words)?;
    if is_device(word.as_bytes()) {
        return Ok((word, rest));
    }
    Err(Misuse::new(name, Cause::DeviceName))
}

/// Returns the root hash, which is the next positional argument unless a file holds it, and the arguments after it.
///
/// # Errors
///
/// `Missing` of `ROOT` if there is neither a file nor an argument, or `RootHash` of `ROOT` if it isn't a root hash.
#[tactic(auto, unfolding(crate::specs::Positional::root_first))]
pub fn root_first<'a, 'b>(
    file: Option<&'a str>,
    words: &'b [&'a str],
) -> Result<(RootWord<'a>, &'b [&'a str]), Misuse<'a>>
    ensures { ReadsValue root_first_record (root_first (text_of file.entry) (texts_of words.now)) result }
{
    if let Some(path) = file {
        return Ok((RootWord::File(path), words));
    }
    let (word, rest) = positional("ROOT", words)?;
    let root = root_said("ROOT", word)?;
    Ok((RootWord::Digest(root), rest))
}

/// Returns the root hash as `root_first` does; no argument is after it.
///
/// # Errors
///
/// The misuse of `root_first`, or `Surplus` of an argument after the root hash.
#[tactic(auto, unfolding(crate::specs::Positional::root_alone))]
pub fn root_alone<'a>(file: Option<&'a str>, words: &[&'a str]) -> Result<RootWord<'a>, Misuse<'a>>
    ensures { ReadsValue root_record (root_alone (text_of file.entry) (texts_of words.now)) result }
{
    match root_first(file, words) {
        Ok((root, rest)) => {
            no_more(rest)?;
            Ok(root)
        }
        Err(misuse) => Err(misuse),
    }
}

/// Returns the root hash or the pin that holds it, and the arguments after it. The root hash is the next argument unless a file
/// or the pin holds it.
///
/// # Errors
///
/// - `WithPin` of `--root-hash-file` if a pin and a file are given.
/// - `FilePath` of `--pin` if the path of the pin is empty or `-`.
/// - The misuse of `root_first` if no pin is given.
#[tactic(auto, unfolding(crate::specs::Positional::root_or_pin_first))]
pub fn root_or_pin_first<'a, 'b>(
    pin: Option<&'a str>,
    file: Option<&'a str>,
    words: &'b [&'a str],
) -> Result<(RootOrPin<'a>, &'b [&'a str]), Misuse<'a>>
    ensures { ReadsValue root_or_pin_first_record (root_or_pin_first (text_of pin.entry) (text_of file.entry) (texts_of words.now)) result }
{
    let Some(word) = pin else {
        return match root_first(file, words) {
            Ok((root, rest)) => Ok((RootOrPin::Root(root), rest)),
            Err(misuse) => Err(misuse),
        };
    };
    refuse_if(file.is_some(), "--root-hash-file", Cause::WithPin)?;
    let path = path_of("--pin", word)?;
    Ok((RootOrPin::Pin(path), words))
}

/// Returns the root hash or its pin as `root_or_pin_first` does; no argument is after it.
///
/// # Errors
///
/// The misuse of `root_or_pin_first`, or `Surplus` of an argument after the root hash.
#[tactic(auto, unfolding(crate::specs::Positional::root_or_pin_alone))]
pub fn root_or_pin_alone<'a>(
    pin: Option<&'a str>,
    file: Option<&'a str>,
    words: &[&'a str],
) -> Result<RootOrPin<'a>, Misuse<'a>>
    ensures { ReadsValue root_or_pin_record (root_or_pin_alone (text_of pin.entry) (text_of file.entry) (texts_of words.now)) result }
{
    match root_or_pin_first(pin, file, words) {
        Ok((root, rest)) => {
            no_more(rest)?;
            Ok(root)
        }
        Err(misuse) => Err(misuse),
    }
}

/// Returns the path of a pin or of a root hash file, if one is given, and all arguments; otherwise the next positional
/// argument, whose name in the usage is `name`, and the arguments after it.
///
/// # Errors
///
/// `Missing` of `name` if there is neither a path nor an argument.
#[tactic(auto, unfolding(crate::specs::Positional::word_or_file))]
pub fn word_or_file<'a, 'b>(
    pin: Option<&'a str>,
    file: Option<&'a str>,
    name: &'a str,
    words: &'b [&'a str],
) -> Result<(&'a str, &'b [&'a str]), Misuse<'a>>
    ensures { ReadsValue next_word (word_or_file (text_of pin.entry) (text_of file.entry) name.now (texts_of words.now)) result }
{
    match (pin, file) {
        (None, None) => positional(name, words),
        (None, Some(path)) => Ok((path, words)),
        (Some(path), _) => Ok((path, words)),
    }
}

/// Returns the device arguments of data and hashes; no argument is after them.
///
/// # Errors
///
/// `Missing` or `DeviceName` of `DATANAME` or `HASHNAME`, or `Surplus` of an argument after them.
#[tactic(auto, unfolding(crate::specs::Positional::device_names))]
pub fn device_names<'a>(words: &[&'a str]) -> Result<(&'a str, &'a str), Misuse<'a>>
    ensures { ReadsValue (λ names. (names.0.now, names.1.now)) (device_names (texts_of words.now)) result }
{
    let (data_name, words) = device_at("DATANAME", words)?;
    let (hash_name, words) = device_at("HASHNAME", words)?;
    no_more(words)?;
    Ok((data_name, hash_name))
}
