//! Which argument keeps clap from taking the words of a command line.
ghost use Rattle.std.specs.Prelude.{◌≡◌, false, count_by, find, map, option_copied, option_map, string_bytes};
ghost use Rattle.std.specs.Option.{option_and_then};
ghost use Rattle.std.specs.Str.{bytes_eq};
ghost use Rattle.command_line.specs.Misuses.{misuse_record};
ghost use Rattle.command_parser.specs.Grammar.{command_text, option_text};
ghost use Rattle.command_parser.specs.Unread.{command_named, ends_options, is_repeated, lacks_value, names_option, option_fault, option_misuse, repeated_option, takes_next, unread_argument, wrong_option};

use crate::option_names::{gives_value, option_of};
use crate::option_rows::OptionRow;
use crate::rows::{CommandRow, command_rows};
use command_line::{Cause, Misuse, is_option};

/// The first option that the command doesn't have, whose value is missing or that takes none, or one that is given twice. No
/// argument is named if there is no such option.
#[tactic(auto, unfolding(crate::specs::Unread::unread_argument))]
pub fn unread_argument<'a>(words: &'a [String]) -> Misuse<'a>
    ensures { misuse_record result ≡ unread_argument (map string_bytes words.now) }
{
    let [name, rest @ ..] = words else {
        return Misuse::new("", Cause::Unread);
    };
    match command_misuse(name.as_bytes(), rest) {
        Some(misuse) => misuse,
        None => Misuse::new("", Cause::Unread),
    }
}

// The misuse of the options of the command of that name.
fn command_misuse<'a>(name: &[u8], words: &'a [String]) -> Option<Misuse<'a>>
    ensures { option_map misuse_record result ≡ option_and_then (λ command. option_misuse command.options (map string_bytes words.now)) (command_named name.now) }
{
    match command_named(name) {
        Some(row) => option_misuse(row.options, words),
        None => None,
    }
}

// The command of that name.
fn command_named(name: &[u8]) -> Option<&'static CommandRow>
    ensures { option_map command_text (option_copied result) ≡ command_named name.now }
{
    command_in(command_rows(), name)
}

// The command of that name among these.
fn command_in<'a>(rows: &'a [CommandRow], name: &[u8]) -> Option<&'a CommandRow>
    ensures { option_map command_text (option_copied result) ≡ find (λ command. bytes_eq command.name name.now) (map command_text rows.now) }
{
    row_named(rows, name)
}

fn row_named<'a>(rows: &'a [CommandRow], name: &[u8]) -> Option<&'a CommandRow>
    ensures { option_copied result ≡ find (λ row. bytes_eq row.name.now name.now) rows.now }
{
    rows.iter().find(|row| row.name.as_bytes() == name)
}

fn option_misuse<'a>(rows: &[OptionRow], words: &'a [String]) -> Option<Misuse<'a>>
    ensures { option_map misuse_record result ≡ option_misuse (map option_text rows.now) (map string_bytes words.now) }
{
    match wrong_option(rows, words) {
        Some(misuse) => Some(misuse),
        None => repeated_option(rows, words),
    }
}

// The first option that is wrong. The value of an option is the next word.
fn wrong_option<'a>(rows: &[OptionRow], words: &'a [String]) -> Option<Misuse<'a>>
    ensures { option_map misuse_record result ≡ wrong_option (map option_text rows.now) false (map string_bytes words.now) }
{
    let mut rest = words;
    let mut is_value = false;
    'words: while let [word, more @ ..] = rest {
        rest = more;
        if is_value {
            is_value = false;
            continue;
        }
        let word = word.as_str();
        if ends_options(word) {
            return None;
        }
        let option = option_of(rows, word.as_bytes()).copied();
        match option_fault(option, word, more) {
            Some(cause) => return Some(Misuse::new(word, cause)),
            None => {}
        }
        is_value = takes_next(option, word);
    }
    None
}

// Whether the word isn't an option, or is `--` alone.
fn ends_options(word: &str) -> bool
    ensures { result ≡ ends_options word.now }
{
    !is_option(word) || word.as_bytes() == b"--".as_slice()
}

// What is wrong with a word that has the form of an option.
fn option_fault(option: Option<OptionRow>, word: &str, next: &[String]) -> Option<Cause>
    ensures { result ≡ option_fault (option_map option_text option) word.now (map string_bytes next.now) }
{
    let Some(row) = option else {
        return Some(Cause::Unknown);
    };
    match (row.has_value, gives_value(word)) {
        (true, false) if lacks_value(next) => Some(Cause::NoValue),
        (false, true) => Some(Cause::UnwantedValue),
        _ => None,
    }
}

// Whether no value is next.
fn lacks_value(words: &[String]) -> bool
    ensures { result ≡ lacks_value (map string_bytes words.now) }
{
    match words {
        [word, ..] => is_option(word.as_str()),
        [] => true,
    }
}

// Whether the next word is the option's value.
fn takes_next(option: Option<OptionRow>, word: &str) -> bool
    ensures { result ≡ takes_next (option_map option_text option) word.now }
{
    match option {
        Some(row) => row.has_value && !gives_value(word),
        None => false,
    }
}

// The first word that names an option that two words name.
fn repeated_option<'a>(rows: &[OptionRow], words: &'a [String]) -> Option<Misuse<'a>>
    ensures { option_map misuse_record result ≡ repeated_option (map option_text rows.now) (map string_bytes words.now) }
{
    match repeated_word(rows, words) {
        Some(word) => Some(Misuse::new(word.as_str(), Cause::Repeated)),
        None => None,
    }
}

fn repeated_word<'a>(rows: &[OptionRow], words: &'a [String]) -> Option<&'a String>
    ensures { option_copied result ≡ find (λ word. is_repeated (map option_text rows.now) (map string_bytes words.now) (string_bytes word)) words.now }
{
    words
        .iter()
        .find(|word| is_repeated(rows, words, word.as_str()))
}

fn is_repeated(rows: &[OptionRow], words: &[String], word: &str) -> bool
    ensures { result ≡ is_repeated (map option_text rows.now) (map string_bytes words.now) word.now }
{
    match option_of(rows, word.as_bytes()) {
        Some(row) => count_named(rows, row.name, words) > 1,
        None => false,
    }
}

// How many words name the option of that name.
fn count_named(rows: &[OptionRow], name: &str, words: &[String]) -> usize
    ensures { result ≡ count_by (names_option (map option_text rows.now) name.now) (map string_bytes words.now) }
{
    words
        .iter()
        .filter(|word| names_option(rows, name, word.as_str()))
        .count()
}

// Whether the word names the option of that name.
fn names_option(rows: &[OptionRow], name: &str, word: &str) -> bool
    ensures { result ≡ names_option (map option_text rows.now) name.now word.now }
{
    match option_of(rows, word.as_bytes()) {
        Some(row) => row.name.as_bytes() == name.as_bytes(),
        None => false,
    }
}
