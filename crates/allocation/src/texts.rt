//! Strings.
ghost use Rattle.std.specs.Prelude.{◌≡◌, ◌≤◌, ◌++◌, ◌+◌, length, IfOk, IfErr, OnOk, OnErr, IsOk, string_bytes, string_capacity, string_len, encode_utf8, decimal};
ghost use Rattle.allocation.specs.Asked.{WasRefused};

use crate::out_of_memory::{OutOfMemory, refused};
use std::alloc::Global;

// The number of digits of the largest `u64`.
const DIGITS: usize = 20;

/// Returns two strings concatenated.
///
/// # Errors
///
/// `OutOfMemory` if the allocation of room for both fails.
pub fn joined(alloc: Global, front: &str, back: &str) -> Result<String, OutOfMemory>
    ensures ok { IfOk result (λ t. string_bytes t ≡ front.now ++ back.now) }
    ensures err { IfErr result (WasRefused (length front.now + length back.now)) }
{
    let whole = front.len() + back.len();
    let Ok(mut text) = String::with_capacity(alloc, whole) else {
        return Err(refused(whole));
    };
    text.push_str(front).unwrap();
    text.push_str(back).unwrap();
    Ok(text)
}

/// Appends a string.
///
/// # Errors
///
/// `OutOfMemory` if the string doesn't fit and the allocation of room for it fails; `text` is unchanged.
pub fn push_text(text: &mut String, more: &str) -> Result<(), OutOfMemory>
    ensures ok { OnOk result (string_bytes text.new ≡ string_bytes text.old ++ more.now) }
    ensures same { OnErr result (string_bytes text.new ≡ string_bytes text.old) }
    ensures err { IfErr result (WasRefused (length more.now)) }
    ensures sure { string_len text.old + length more.now ≤ string_capacity text.old → IsOk result }
{
    match text.push_str(more) {
        Ok(()) => Ok(()),
        Err(_) => Err(refused(more.len())),
    }
}

/// Appends a character, up to four bytes.
///
/// # Errors
///
/// `OutOfMemory` if it doesn't fit and the allocation of room for it fails; `text` is unchanged.
pub fn push_char(text: &mut String, c: char) -> Result<(), OutOfMemory>
    ensures ok { OnOk result (string_bytes text.new ≡ string_bytes text.old ++ encode_utf8 c) }
    ensures same { OnErr result (string_bytes text.new ≡ string_bytes text.old) }
    ensures err { IfErr result (WasRefused 4) }
    ensures sure { string_len text.old + 4 ≤ string_capacity text.old → IsOk result }
{
    match text.push(c) {
        Ok(()) => Ok(()),
        Err(_) => Err(refused(4)),
    }
}

/// Returns a number in decimal.
///
/// # Errors
///
/// `OutOfMemory` if the allocation of room for its digits fails.
pub fn number(alloc: Global, number: u64) -> Result<String, OutOfMemory>
    ensures ok { IfOk result (λ t. string_bytes t ≡ decimal number) }
    ensures err { IfErr result (WasRefused 20) }
{
    match format!(in alloc; "{number}") {
        Ok(text) => Ok(text),
        Err(_) => Err(refused(DIGITS)),
    }
}
