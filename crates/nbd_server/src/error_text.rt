//! The text of an error chunk.
ghost use Rattle.std.specs.Prelude.{◌≡◌, ◌≤◌, ◌+◌, ◌++◌, length, take};
ghost use Rattle.nbd_server.specs.Failures.{block_text, failure_text};

use crate::failure::Failure;
use itoa::Buffer;
use std::marker::Model;

// The most bytes of a text: those around a number, and the longest number.
const MOST: usize = 80;

/// What an error chunk says to humans. No memory is allocated for it.
#[derive(Drop)]
pub(crate) struct ErrorText {
    bytes: [u8; MOST],
    count: usize,
}

impl Model for ErrorText {
    ghost use Rattle.std.specs.Prelude.{List, ℕ, ◌≤◌, take};

    ghost Value = { List ℕ };

    ghost view = { λ t. take t.count t.bytes };

    ghost invariant = { λ t. t.count ≤ 80 };
}

/// Puts bytes after the first `at` bytes of the room, and returns how many there are then.
pub(crate) fn append(room: &mut [u8], at: usize, bytes: &[u8]) -> usize
    requires { at + length bytes.now ≤ length room.old }
    ensures count { result ≡ at + length bytes.now }
    ensures text { take result room.new ≡ take at room.old ++ bytes.now }
    ensures size { length room.new ≡ length room.old }
{
    let end = at + bytes.len();
    room[at..end].copy_from_slice(bytes);
    end
}

// Puts the text on a data block that fails verification into the room, and returns its length.
fn put_block(room: &mut [u8], block: u64) -> usize
    requires { length room.old ≡ MOST }
    ensures text { take result room.new ≡ block_text block }
    ensures few { result ≤ MOST }
    ensures size { length room.new ≡ length room.old }
{
    let mut digits = Buffer::new();
    let word = append(room, 0, b"data block ");
    let end = append(room, word, digits.format(block).as_bytes());
    append(room, end, b" fails verification")
}

// Puts the text on a failure into the room, and returns its length.
fn put_text(room: &mut [u8], error: Failure) -> usize
    requires { length room.old ≡ MOST }
    ensures text { take result room.new ≡ failure_text error }
    ensures few { result ≤ MOST }
    ensures size { length room.new ≡ length room.old }
{
    match error.block() {
        None => append(room, 0, error.text().as_bytes()),
        Some(block) => put_block(room, block.number),
    }
}

impl ErrorText {
    /// Returns the text on a failure.
    pub(crate) fn of(error: Failure) -> ErrorText
        ensures { result ≡ failure_text error }
    {
        let mut bytes = [0; MOST];
        let count = put_text(&mut bytes, error);
        ErrorText { bytes, count }
    }

    /// Returns the bytes of the text.
    pub(crate) fn as_bytes(&self) -> &[u8]
        ensures value { result.now ≡ self.now }
        ensures short { length result.now ≤ MOST }
    {
        &self.bytes[..self.count]
    }
}
