//! The options that words name.
ghost use Rattle.std.specs.Prelude.{◌≡◌, ◌==◌, find, map, option_copied, option_map, position};
ghost use Rattle.std.specs.List.{before_first, list_any};
ghost use Rattle.std.specs.Str.{bytes_eq};
ghost use Rattle.command_parser.specs.Grammar.{option_text};
ghost use Rattle.command_parser.specs.OptionNames.{gives_value, is_named, option_of};

use crate::option_rows::OptionRow;

/// The option that the word names, as `--NAME` or `--NAME=VALUE`.
#[tactic(auto, unfolding(crate::specs::OptionNames::option_of))]
pub fn option_of<'a>(rows: &'a [OptionRow], word: &[u8]) -> Option<&'a OptionRow>
    ensures { option_map option_text (option_copied result) ≡ option_of (map option_text rows.now) word.now }
{
    if !word.starts_with(b"--") {
        return None;
    }
    option_named(rows, before_equals(&word[2..]))
}

// The first option that has that name.
fn option_named<'a>(rows: &'a [OptionRow], name: &[u8]) -> Option<&'a OptionRow>
    ensures { option_copied result ≡ find (λ row. is_named name.now (option_text row)) rows.now }
{
    rows.iter().find(|row| is_named(name, row))
}

// Whether the option has that name.
fn is_named(name: &[u8], row: &OptionRow) -> bool
    ensures { result ≡ is_named name.now (option_text row.now) }
{
    row.name.as_bytes() == name || has_other(name, row.others)
}

// Whether one of the other names is that.
fn has_other(name: &[u8], others: &[&str]) -> bool
    ensures { result ≡ list_any (λ other. bytes_eq other.now name.now) others.now }
{
    others.iter().any(|other| other.as_bytes() == name)
}

// The word up to its first `=`.
fn before_equals(word: &[u8]) -> &[u8]
    ensures { result.now ≡ before_first (λ b. b == 61) word.now }
{
    let end = first_equals(word).unwrap_or(word.len());
    &word[..end]
}

fn first_equals(word: &[u8]) -> Option<usize>
    ensures { result ≡ position (λ b. b == 61) word.now }
{
    word.iter().position(|b| *b == b'=')
}

/// Whether the word has a `=`, after which is a value.
pub fn gives_value(word: &str) -> bool
    ensures { result ≡ gives_value word.now }
{
    word.as_bytes().iter().any(|b| *b == b'=')
}
