//! Splitting a text into words, or into pieces at a separator.
ghost use Rattle.std.specs.Prelude.{◌≡◌, ◌-◌, ◌≤◌, ◌==◌, List, ℕ, [], ◌∷◌, length, IsTrue, ◌↔◌, MatchOption, MatchResult};
ghost use Rattle.dm_table.specs.declared.fault.TextKind.TheVariants as kinds;
ghost use Rattle.std.specs.List.{list_all, position_or_len, prefix_len, slice_split, suffix_len};
ghost use Rattle.dm_table.specs.Words.{IsCons, is_white, is_text, trimmed_text, words};

use dm_table::TextKind;
use std::marker::Model;

/// Returns whether the byte is a space, tab, carriage return or newline.
pub(crate) fn is_white(byte: u8) -> bool
    ensures { result ≡ is_white byte }
{
    byte == b' ' || byte == b'\t' || byte == b'\r' || byte == b'\n'
}

/// Returns whether the text contains only white space and printing ASCII characters other than the backslash.
pub(crate) fn is_text(text: &[u8]) -> bool
    ensures { result ≡ is_text text.now }
{
    text.iter().all(|b| is_white(*b) || (0x21 <= *b && *b <= 0x7e && *b != b'\\'))
}

/// Returns whether the text contains only white space.
pub(crate) fn is_blank(text: &[u8]) -> bool
    ensures { result ≡ list_all is_white text.now }
{
    text.iter().all(|b| is_white(*b))
}

/// Returns the number of white-space bytes (space, tab, carriage return, newline) at the start of the text.
pub fn white_len(text: &[u8]) -> usize
    ensures value { result ≡ prefix_len is_white text.now }
    ensures bound { result ≤ length text.now }
{
    'bytes: for (at, byte) in text.iter().enumerate() {
        if !is_white(*byte) {
            return at;
        }
    }
    text.len()
}

/// Returns the length of the text without the white space at its end.
fn trimmed_len(text: &[u8]) -> usize
    ensures value { result ≡ length text.now - suffix_len is_white text.now }
    ensures bound { result ≤ length text.now }
{
    let mut end = text.len();
    'bytes: while end > 0 && is_white(text[end - 1]) {
        end -= 1;
    }
    end
}

/// Returns the number of bytes before the first white space, or the length of the text if there is none.
pub fn word_len(text: &[u8]) -> usize
    ensures value { result ≡ position_or_len is_white text.now }
    ensures bound { result ≤ length text.now }
{
    'bytes: for (at, byte) in text.iter().enumerate() {
        if is_white(*byte) {
            return at;
        }
    }
    text.len()
}

/// Returns the number of bytes before the first separator, or the length of the text if there is none.
pub(crate) fn piece_len(text: &[u8], separator: u8) -> usize
    ensures value { result ≡ position_or_len (λ b. b == separator) text.now }
    ensures bound { result ≤ length text.now }
{
    'bytes: for (at, byte) in text.iter().enumerate() {
        if *byte == separator {
            return at;
        }
    }
    text.len()
}

/// The remaining words of a text: the maximal runs of bytes that aren't white space. Bytes aren't checked otherwise.
#[derive(Drop)]
pub struct Words<'a> {
    rest: &'a [u8],
}

impl<'a> Model for Words<'a> {
    ghost use Rattle.std.specs.Prelude.{List, ℕ};
    ghost use Rattle.dm_table.specs.Words.{words};

    ghost Value = { List (List ℕ) };

    ghost view = { λ w. words w.rest.now };
}

impl<'a> Words<'a> {
    /// Returns all words of the text.
    pub fn new(text: &'a [u8]) -> Words<'a>
        ensures { result ≡ words text.now }
    {
        Words { rest: text }
    }

    /// Returns the same words, to be read a second time.
    pub(crate) fn again(&self) -> Words<'a>
        ensures { result ≡ self.now }
    {
        Words { rest: self.rest }
    }

    /// Removes and returns the first word, or returns `None` if no words remain.
    pub fn next_word(&mut self) -> Option<&'a [u8]>
        ensures { MatchOption result
            ((self.old ≡ []) × (self.new ≡ []))
            (λ word. self.old ≡ word.now ∷ self.new) }
    {
        let rest = &self.rest[white_len(self.rest)..];
        let end = word_len(rest);
        if end == 0 {
            return None;
        }
        self.rest = &rest[end..];
        Some(&rest[..end])
    }

    /// Removes and returns the first word.
    ///
    /// # Errors
    ///
    /// `ArgCount` if no words remain.
    pub(crate) fn take_word(&mut self) -> Result<&'a [u8], TextKind>
        ensures { MatchResult result
            (λ word. self.old ≡ word.now ∷ self.new)
            (λ kind. (kind ≡ kinds.ArgCount) × (self.old ≡ []) × (self.new ≡ [])) }
    {
        self.next_word().ok_or(TextKind::ArgCount)
    }

    /// Checks that no words remain.
    ///
    /// # Errors
    ///
    /// `ArgCount` if a word remains.
    pub(crate) fn end(&self) -> Result<(), TextKind>
        ensures { MatchResult result
            (λ _. self.now ≡ [])
            (λ kind. (kind ≡ kinds.ArgCount) × IsCons self.now) }
    {
        let mut words = self.again();
        match words.next_word() {
            None => Ok(()),
            Some(_) => Err(TextKind::ArgCount),
        }
    }

    /// Returns whether exactly `count` words remain. It splits at most one more.
    pub(crate) fn are(&self, count: usize) -> bool
        ensures { IsTrue result ↔ (length self.now ≡ count) }
    {
        let mut words = self.again();
        for _ in 0..count {
            if words.next_word().is_none() {
                return false;
            }
        }
        words.next_word().is_none()
    }
}

/// The remaining pieces of a text that is split at each separator.
#[derive(Drop)]
pub(crate) struct Pieces<'a> {
    separator: u8,
    rest: Option<&'a [u8]>,
}

impl<'a> Model for Pieces<'a> {
    ghost use Rattle.std.specs.Prelude.{List, ℕ};
    ghost use Rattle.dm_table.specs.Words.{pieces_left};

    ghost Value = { List (List ℕ) };

    ghost view = { λ p. pieces_left p.separator p.rest };
}

impl<'a> Pieces<'a> {
    pub(crate) fn new(text: &'a [u8], separator: u8) -> Pieces<'a>
        ensures { result ≡ slice_split (λ b. b == separator) text.now }
    {
        Pieces {
            separator,
            rest: Some(text),
        }
    }

    /// Removes and returns the first piece, or returns `None` if no pieces remain.
    pub(crate) fn next_piece(&mut self) -> Option<&'a [u8]>
        ensures { MatchOption result
            ((self.old ≡ []) × (self.new ≡ []))
            (λ piece. self.old ≡ piece.now ∷ self.new) }
    {
        let rest = self.rest?;
        let end = piece_len(rest, self.separator);
        self.rest = if end < rest.len() {
            Some(&rest[end + 1..])
        } else {
            None
        };
        Some(&rest[..end])
    }

    /// Removes and returns the first piece.
    ///
    /// # Errors
    ///
    /// `Fields` if no pieces remain.
    pub(crate) fn take_field(&mut self) -> Result<&'a [u8], TextKind>
        ensures { MatchResult result
            (λ field. self.old ≡ field.now ∷ self.new)
            (λ kind. (kind ≡ kinds.Fields) × (self.old ≡ []) × (self.new ≡ [])) }
    {
        self.next_piece().ok_or(TextKind::Fields)
    }
}

/// Returns the text without the white space at both ends.
pub(crate) fn trim(text: &[u8]) -> &[u8]
    ensures { result.now ≡ trimmed_text text.now }
{
    let rest = &text[white_len(text)..];
    &rest[..trimmed_len(rest)]
}
