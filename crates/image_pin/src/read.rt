//! Reading pins.
ghost use Rattle.std.specs.Prelude.{◌≡◌, ◌==◌, ◌∷◌, ◌≤◌, length};
ghost use Rattle.std.specs.List.{position_or_len};
ghost use Rattle.dm_table.specs.Words.{text_lines, words};
ghost use Rattle.image_pin.specs.Fields.{no_fields};
ghost use Rattle.image_pin.specs.PinTexts.{at_end, fields_behind, limited_pin, pin_of, rest_lines, take_line, take_lines};

use crate::fault::PinFault;
use crate::fields::{PinFields, finish, set_field};
use crate::name::name_of;
use crate::pin::Pin;
use table_text::Words;

/// The largest size of a pin in bytes.
pub const MOST_BYTES: usize = 4096;

/// Reads a pin: the header `dmstack-pin 1`, followed by a line `NAME VALUE` for each of its five names, in any order.
///
/// # Errors
///
/// `TooLong` if the text is longer than `MOST_BYTES`, and otherwise the first fault in reading order.
pub fn parse_pin(text: &[u8]) -> Result<Pin, PinFault>
    ensures { result ≡ limited_pin text.now }
{
    if text.len() > MOST_BYTES {
        return Err(PinFault::TooLong);
    }
    pin_of(text)
}

#[tactic(auto, unfolding(crate::specs::PinTexts::pin_of))]
fn pin_of(text: &[u8]) -> Result<Pin, PinFault>
    ensures { result ≡ pin_of text.now }
{
    match fields_behind(text) {
        Ok(fields) => finish(fields),
        Err(fault) => Err(fault),
    }
}

// Returns the fields of the lines after the first, which must be the header.
fn fields_behind(text: &[u8]) -> Result<PinFields, PinFault>
    ensures { result ≡ fields_behind (text_lines text.now) }
{
    let (line, rest) = cut_line(text);
    if line == b"dmstack-pin 1".as_slice() {
        return take_lines(rest);
    }
    Err(PinFault::Header)
}

// Returns the number of bytes before the first newline.
fn line_len(text: &[u8]) -> usize
    ensures value { result ≡ position_or_len (λ b. b == 10) text.now }
    ensures bound { result ≤ length text.now }
{
    'bytes: for (at, byte) in text.iter().enumerate() {
        if *byte == b'\n' {
            return at;
        }
    }
    text.len()
}

// Returns the first line, and the text after its newline.
fn cut_line(text: &[u8]) -> (&[u8], Option<&[u8]>)
    ensures { text_lines text.now ≡ result.0.now ∷ rest_lines result.1 }
{
    let end = line_len(text);
    if end < text.len() {
        (&text[..end], Some(&text[end + 1..]))
    } else {
        (text, None)
    }
}

// Returns the fields of all lines; nothing may follow the last newline.
fn take_lines(lines: Option<&[u8]>) -> Result<PinFields, PinFault>
    ensures { result ≡ take_lines no_fields (rest_lines lines.entry) }
{
    let mut fields = PinFields::new();
    let mut rest = lines;
    'lines: while let Some(text) = rest {
        let (line, more) = cut_line(text);
        if line.is_empty() {
            return at_end(fields, more);
        }
        fields = take_line(fields, line)?;
        rest = more;
    }
    Ok(fields)
}

// Returns the fields if no lines remain.
fn at_end(fields: PinFields, rest: Option<&[u8]>) -> Result<PinFields, PinFault>
    ensures { result ≡ at_end fields (rest_lines rest.entry) }
{
    match rest {
        None => Ok(fields),
        Some(_) => Err(PinFault::Line),
    }
}

// Returns the fields with those of a line added: a name and a value.
fn take_line(fields: PinFields, line: &[u8]) -> Result<PinFields, PinFault>
    ensures { result ≡ take_line fields (words line.now) }
{
    let mut words = Words::new(line);
    let (Some(name), Some(value)) = (words.next_word(), words.next_word()) else {
        return Err(PinFault::Line);
    };
    if words.next_word().is_some() {
        return Err(PinFault::Line);
    }
    match name_of(name) {
        Some(name) => set_field(fields, name, value),
        None => Err(PinFault::Unknown),
    }
}
