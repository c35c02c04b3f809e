//! The options of the handshake.
ghost use Rattle.std.specs.Prelude.{◌≡◌, true};
ghost use Rattle.program_io.specs.Counted.{Writes};
ghost use Rattle.nbd_protocol.specs.Exports.{HaveShortNames, export_records};
ghost use Rattle.nbd_protocol.specs.Handshake.{answer_by, fields_by, info_by, is_info, is_place, name_in, names_export, one_fewer, phase_after, serving_at, structured_reply, terms_after, terms_after_long, told_in_by, wanted_in};

use crate::contexts::{LIST_META_CONTEXT, SET_META_CONTEXT, say_contexts, status_after};
use crate::export::Export;
use crate::exports::{asked, export_at};
use crate::information::say_told;
use crate::numbers::{number16, number32};
use crate::option_reply::{LIST, Refusal, acknowledge, refuse, say_export, say_list};
use crate::phase::{Agreement, Phase, Terms};
use program_io::{Counted, WriteFault};
use std::io::Write;

/// The option that ends the handshake. Its reply has no header.
pub const EXPORT_NAME: u32 = 1;

/// The option by which a client ends the session.
pub const ABORT: u32 = 2;

const INFO: u32 = 6;

const GO: u32 = 7;

const STRUCTURED_REPLY: u32 = 8;

// Whether the lengths in the data of INFO or GO add up.
fn is_info(content: &[u8]) -> bool
    ensures { result ≡ is_info content.now }
{
    if content.len() < 6 {
        return false;
    }
    let name = number32(content, 0) as usize;
    if content.len() < name + 6 {
        return false;
    }
    let wanted = usize::from(number16(content, 4 + name));
    content.len() == name + 6 + 2 * wanted
}

// Returns the export's name in the data of INFO or GO.
fn name_in(content: &[u8]) -> &[u8]
    requires { is_info content.now ≡ true }
    ensures { result.now ≡ name_in content.now }
{
    let len = number32(content, 0) as usize;
    &content[4..4 + len]
}

// Returns the information requests in the data of INFO or GO, two bytes each.
fn wanted_in(content: &[u8]) -> &[u8]
    requires { is_info content.now ≡ true }
    ensures { result.now ≡ wanted_in content.now }
{
    let len = number32(content, 0) as usize;
    &content[6 + len..]
}

// Writes the reply to INFO or GO.
#[tactic(auto, unfolding(crate::specs::Handshake::info_reply))]
fn say_info<W: Write>(
    writer: &mut Counted<W>,
    exports: &[Export<'_>],
    terms: Terms,
    option: u32,
    content: &[u8],
) -> Result<(), WriteFault>
    requires { HaveShortNames exports.now }
    ensures { Writes W.contents writer.old writer.new (info_by exports.now terms option content.now) result }
{
    if !is_info(content) {
        return refuse(writer, option, Refusal::Invalid);
    }
    say_asked(writer, exports, terms, option, content)
}

// Writes the reply to INFO or GO whose lengths add up.
fn say_asked<W: Write>(
    writer: &mut Counted<W>,
    exports: &[Export<'_>],
    terms: Terms,
    option: u32,
    content: &[u8],
) -> Result<(), WriteFault>
    requires info { is_info content.now ≡ true }
    requires names { HaveShortNames exports.now }
    ensures { Writes W.contents writer.old writer.new (told_in_by exports.now terms option content.now) result }
{
    match asked(exports, name_in(content)) {
        Some(place) => say_told(
            writer,
            export_at(exports, place),
            terms,
            option,
            wanted_in(content),
        ),
        None => refuse(writer, option, Refusal::Unknown),
    }
}

// Writes the reply to EXPORT_NAME. If there is no such export, nothing is written.
fn say_named<W: Write>(
    writer: &mut Counted<W>,
    exports: &[Export<'_>],
    terms: Terms,
    name: &[u8],
) -> Result<(), WriteFault>
    ensures { Writes W.contents writer.old writer.new (fields_by exports.now terms name.now) result }
{
    match asked(exports, name) {
        Some(place) => say_export(writer, export_at(exports, place), terms),
        None => Ok(()),
    }
}

// Writes the reply to STRUCTURED_REPLY, which must have no data.
fn say_structured<W: Write>(writer: &mut Counted<W>, content: &[u8]) -> Result<(), WriteFault>
    ensures { Writes W.contents writer.old writer.new (structured_reply content.now) result }
{
    if !content.is_empty() {
        return refuse(writer, STRUCTURED_REPLY, Refusal::Invalid);
    }
    acknowledge(writer, STRUCTURED_REPLY)
}

/// Returns whether the option can be answered: EXPORT_NAME must name an export.
pub fn names_export(exports: &[Export<'_>], option: u32, content: &[u8]) -> bool
    ensures { result ≡ names_export (export_records exports.now) option content.now }
{
    option != EXPORT_NAME || asked(exports, content).is_some()
}

/// Writes the reply to an option.
///
/// # Errors
///
/// `WriteFault` if the writer failed.
#[tactic(auto, unfolding(crate::specs::Handshake::answer_to))]
pub fn say_answer<W: Write>(
    writer: &mut Counted<W>,
    exports: &[Export<'_>],
    terms: Terms,
    option: u32,
    content: &[u8],
) -> Result<(), WriteFault>
    requires { HaveShortNames exports.now }
    ensures { Writes W.contents writer.old writer.new (answer_by exports.now terms option content.now) result }
{
    match option {
        EXPORT_NAME => say_named(writer, exports, terms, content),
        ABORT => acknowledge(writer, ABORT),
        LIST => say_list(writer, exports, content),
        INFO | GO => say_info(writer, exports, terms, option, content),
        STRUCTURED_REPLY => say_structured(writer, content),
        LIST_META_CONTEXT | SET_META_CONTEXT => {
            say_contexts(writer, exports, terms, option, content)
        }
        _ => refuse(writer, option, Refusal::Unsupported),
    }
}

/// Returns the phase after an option.
#[tactic(auto, unfolding(crate::specs::Handshake::phase_after))]
pub fn phase_after(exports: &[Export<'_>], terms: Terms, option: u32, content: &[u8]) -> Phase
    ensures { result ≡ phase_after (export_records exports.now) terms option content.now }
{
    match option {
        EXPORT_NAME => serving_at(terms, asked(exports, content)),
        ABORT => Phase::Over,
        GO if is_info(content) => serving_at(terms, asked(exports, name_in(content))),
        _ => Phase::Haggling {
            terms: terms_after(exports, terms, option, content),
        },
    }
}

// The agreed terms after an option that doesn't end the handshake.
fn terms_after(exports: &[Export<'_>], terms: Terms, option: u32, content: &[u8]) -> Terms
    ensures { result ≡ terms_after (export_records exports.now) terms option content.now }
{
    let asks = option == STRUCTURED_REPLY && content.is_empty();
    Terms {
        no_zeroes: terms.no_zeroes,
        structured: terms.structured || asks,
        status: status_after(exports, terms, option, content),
        left: terms.left.saturating_sub(1),
    }
}

/// Returns the agreed terms after an option whose data are too long. SET_META_CONTEXT deselects block status even then.
pub fn terms_after_long(terms: Terms, option: u32) -> Terms
    ensures { result ≡ terms_after_long terms option }
{
    Terms {
        no_zeroes: terms.no_zeroes,
        structured: terms.structured,
        status: if option == SET_META_CONTEXT {
            None
        } else {
            terms.status
        },
        left: terms.left.saturating_sub(1),
    }
}

// Whether the context is selected for the export at that index.
fn is_place(selected: Option<usize>, place: usize) -> bool
    ensures { result ≡ is_place selected place }
{
    match selected {
        Some(selected) => selected == place,
        None => false,
    }
}

// The terms after an option that agrees on nothing.
fn one_fewer(terms: Terms) -> Terms
    ensures { result ≡ one_fewer terms }
{
    Terms {
        no_zeroes: terms.no_zeroes,
        structured: terms.structured,
        status: terms.status,
        left: terms.left.saturating_sub(1),
    }
}

// The transmission phase for the requested export. If there is no such export, the handshake goes on.
fn serving_at(terms: Terms, asked: Option<usize>) -> Phase
    ensures { result ≡ serving_at terms asked }
{
    match asked {
        Some(place) => Phase::Serving {
            agreed: Agreement {
                place,
                structured: terms.structured,
                status: is_place(terms.status, place),
            },
        },
        None => Phase::Haggling {
            terms: one_fewer(terms),
        },
    }
}
