//! The lines of a text, and those that are neither blank nor comments.
ghost use Rattle.std.specs.Prelude.{◌≡◌, ◌==◌, [], ◌∷◌, ◌≤◌, length, MatchOption};
ghost use Rattle.std.specs.List.{position_or_len};
ghost use Rattle.dm_table.specs.TableText.{is_skipped};
ghost use Rattle.dm_table.specs.Words.{text_lines, words};
ghost use Rattle.rescue_map.specs.MapText.{said};

use std::marker::Model;
use table_text::Words;

// Returns the number of bytes before the first newline.
fn line_len(text: &[u8]) -> usize
    ensures value { result ≡ position_or_len (λ b. b == 10) text.now }
    ensures bound { result ≤ length text.now }
{
    'bytes: for (at, byte) in text.iter().enumerate() {
        if *byte == b'\n' {
            return at;
        }
    }
    text.len()
}

/// The remaining lines of a text.
#[derive(Drop)]
pub(crate) struct Lines<'a> {
    rest: Option<&'a [u8]>,
}

impl<'a> Model for Lines<'a> {
    ghost use Rattle.std.specs.Prelude.{List, ℕ};
    ghost use Rattle.dm_table.specs.Words.{pieces_left};

    ghost Value = { List (List ℕ) };

    ghost view = { λ l. pieces_left 10 l.rest };
}

impl<'a> Lines<'a> {
    pub(crate) fn new(text: &'a [u8]) -> Lines<'a>
        ensures { result ≡ text_lines text.now }
    {
        Lines { rest: Some(text) }
    }

    /// Removes and returns the first line, or returns `None` if no lines remain.
    pub(crate) fn next_line(&mut self) -> Option<&'a [u8]>
        ensures { MatchOption result
            ((self.old ≡ []) × (self.new ≡ []))
            (λ line. self.old ≡ line.now ∷ self.new) }
    {
        let rest = self.rest?;
        let end = line_len(rest);
        self.rest = if end < rest.len() {
            Some(&rest[end + 1..])
        } else {
            None
        };
        Some(&rest[..end])
    }
}

// Returns whether the line is blank or a comment.
fn is_skipped(line: &[u8]) -> bool
    ensures { result ≡ is_skipped (words line.now) }
{
    match Words::new(line).next_word() {
        None => true,
        Some(word) => word.starts_with(b"#"),
    }
}

/// Removes and returns the first line that is neither blank nor a comment, with the lines before it.
pub(crate) fn next_said<'a>(lines: &mut Lines<'a>) -> Option<&'a [u8]>
    ensures { MatchOption result
        ((said lines.old ≡ []) × (said lines.new ≡ []))
        (λ line. said lines.old ≡ words line.now ∷ said lines.new) }
{
    'lines: while let Some(line) = lines.next_line() {
        if !is_skipped(line) {
            return Some(line);
        }
    }
    None
}
