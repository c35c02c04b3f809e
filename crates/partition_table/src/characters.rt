//! The characters that units of UTF-16 spell.
ghost use Rattle.std.specs.Prelude.{◌≡◌, ◌<◌, ◌≤◌, ◌∷◌, length, drop, string_bytes, IfOk, IfErr};
ghost use Rattle.std.specs.Char.Utf16.{utf16_chars, utf16_lossy_chars};
ghost use Rattle.std.specs.Str.{encode_utf8_all};
ghost use Rattle.allocation.specs.Asked.{asked};
ghost use Rattle.partition_table.specs.Labels.{name_room};

use allocation::{OutOfMemory, push_char};
use std::alloc::Global;

const REPLACEMENT: char = '\u{FFFD}';

/// Returns the text of units of UTF-16, with U+FFFD for each surrogate that has no partner: `String::from_utf16_lossy`, whose
/// error is no evidence.
///
/// # Errors
///
/// `OutOfMemory` if the allocator refused room for a character.
pub(crate) fn lossy_text(alloc: Global, units: &[u16]) -> Result<String, OutOfMemory>
    ensures ok { IfOk result (λ s. string_bytes s ≡ encode_utf8_all (utf16_lossy_chars units.now)) }
    ensures err { IfErr result (λ e. asked e ≤ name_room) }
{
    let mut text = String::new(alloc);
    let mut at = 0;
    while at < units.len() {
        let (found, next) = char_at(units, at);
        push_char(&mut text, found.unwrap_or(REPLACEMENT))?;
        at = next;
    }
    Ok(text)
}

// The character whose units begin at `at`, unless that unit is a surrogate without a partner, and where the next one begins.
fn char_at(units: &[u16], at: usize) -> (Option<char>, usize)
    requires { at < length units.now }
    ensures bound { (at < result.1) × (result.1 ≤ length units.now) }
    ensures first { utf16_chars (drop at units.now) ≡ result.0 ∷ utf16_chars (drop result.1 units.now) }
{
    let high = units[at] as u32;
    if high < 0xD800 || 0xE000 <= high {
        return (char::from_u32(high), at + 1);
    }
    if 0xDC00 <= high || units.len() - at < 2 {
        return (None, at + 1);
    }
    let low = units[at + 1] as u32;
    if low < 0xDC00 || 0xE000 <= low {
        return (None, at + 1);
    }
    let code = 0x1_0000 + (high - 0xD800) * 0x400 + (low - 0xDC00);
    (char::from_u32(code), at + 2)
}
