//! Writes the replies to INFO and GO.
ghost use Rattle.std.specs.Prelude.{◌≡◌, ◌≤◌, length};
ghost use Rattle.program_io.specs.Counted.{Writes};
ghost use Rattle.nbd_protocol.specs.Exports.{HasShortName, export_record};
ghost use Rattle.nbd_protocol.specs.Handshake.{description, description_info, export_info, name_info, size_info, told_by, wanted_description, wanted_facts, wanted_name, wanted_others, wanted_sizes, wants_info};

use crate::export::Export;
use crate::header::MOST_LENGTH;
use crate::numbers::{put16, put32, put64};
use crate::option_reply::{acknowledge, say_head};
use crate::phase::Terms;
use program_io::{Counted, WriteFault};
use std::io::Write;

const INFO: u32 = 3;

// The types of information.
const NAME: u8 = 1;

const DESCRIPTION: u8 = 2;

const BLOCK_SIZE: u8 = 3;

// Writes the data of INFO_EXPORT: the export's size and flags.
fn say_export_info<W: Write>(
    writer: &mut Counted<W>,
    export: &Export<'_>,
    terms: Terms,
) -> Result<(), WriteFault>
    ensures { Writes W.contents writer.old writer.new (export_info (export_record export.now) terms) result }
{
    put16(writer, 0)?;
    put64(writer, export.size)?;
    put16(writer, export.flags(terms.structured))
}

// Writes the data of INFO_BLOCK_SIZE: the minimum, preferred and maximum size of a request.
fn say_sizes<W: Write>(writer: &mut Counted<W>) -> Result<(), WriteFault>
    ensures { Writes W.contents writer.old writer.new size_info result }
{
    put16(writer, 3)?;
    put32(writer, 1)?;
    put32(writer, 4096)?;
    put32(writer, MOST_LENGTH)
}

// Writes the data of INFO_NAME: the export's name.
fn say_name_info<W: Write>(writer: &mut Counted<W>, export: &Export<'_>) -> Result<(), WriteFault>
    ensures { Writes W.contents writer.old writer.new (name_info (export_record export.now)) result }
{
    put16(writer, 1)?;
    writer.put(export.name)
}

// Writes the export's name if the client requested it.
#[tactic(auto, unfolding(crate::specs::Handshake::wanted_name))]
fn say_wanted_name<W: Write>(
    writer: &mut Counted<W>,
    export: &Export<'_>,
    option: u32,
    wanted: &[u8],
) -> Result<(), WriteFault>
    requires { HasShortName (export_record export.now) }
    ensures { Writes W.contents writer.old writer.new (wanted_name (export_record export.now) option wanted.now) result }
{
    if !wants_info(wanted, NAME) {
        return Ok(());
    }
    say_head(writer, option, INFO, export.name.len() as u32 + 2)?;
    say_name_info(writer, export)
}

// What an export is, for humans. A device that has a `verity` line is read-only.
fn description(verity: bool, writable: bool) -> &'static str
    ensures value { result.now ≡ description verity writable }
    ensures short { length result.now ≤ 24 }
{
    match (verity, writable) {
        (true, _) => "verity, read-only",
        (false, true) => "mapped device, writable",
        (false, false) => "mapped device, read-only",
    }
}

// Writes the data of INFO_DESCRIPTION.
fn say_description_info<W: Write>(writer: &mut Counted<W>, text: &str) -> Result<(), WriteFault>
    ensures { Writes W.contents writer.old writer.new (description_info text.now) result }
{
    put16(writer, 2)?;
    writer.put(text.as_bytes())
}

// Writes the export's description if the client requested it.
#[tactic(auto, unfolding(crate::specs::Handshake::wanted_description))]
fn say_wanted_description<W: Write>(
    writer: &mut Counted<W>,
    export: &Export<'_>,
    option: u32,
    wanted: &[u8],
) -> Result<(), WriteFault>
    ensures { Writes W.contents writer.old writer.new (wanted_description (export_record export.now) option wanted.now) result }
{
    if !wants_info(wanted, DESCRIPTION) {
        return Ok(());
    }
    let text = description(export.verity, export.writable);
    say_head(writer, option, INFO, text.len() as u32 + 2)?;
    say_description_info(writer, text)
}

// Writes the block sizes if the client requested them.
#[tactic(auto, unfolding(crate::specs::Handshake::wanted_sizes))]
fn say_wanted_sizes<W: Write>(
    writer: &mut Counted<W>,
    option: u32,
    wanted: &[u8],
) -> Result<(), WriteFault>
    ensures { Writes W.contents writer.old writer.new (wanted_sizes option wanted.now) result }
{
    if !wants_info(wanted, BLOCK_SIZE) {
        return Ok(());
    }
    say_head(writer, option, INFO, 14)?;
    say_sizes(writer)
}

// Writes the description and the block sizes, each if the client requested it.
fn say_wanted_others<W: Write>(
    writer: &mut Counted<W>,
    export: &Export<'_>,
    option: u32,
    wanted: &[u8],
) -> Result<(), WriteFault>
    ensures { Writes W.contents writer.old writer.new (wanted_others (export_record export.now) option wanted.now) result }
{
    say_wanted_description(writer, export, option, wanted)?;
    say_wanted_sizes(writer, option, wanted)
}

// Writes the name, the description and the block sizes, each if the client requested it.
fn say_wanted<W: Write>(
    writer: &mut Counted<W>,
    export: &Export<'_>,
    option: u32,
    wanted: &[u8],
) -> Result<(), WriteFault>
    requires { HasShortName (export_record export.now) }
    ensures { Writes W.contents writer.old writer.new (wanted_facts (export_record export.now) option wanted.now) result }
{
    say_wanted_name(writer, export, option, wanted)?;
    say_wanted_others(writer, export, option, wanted)
}

/// Writes the replies to INFO and GO for an existing export: its size and flags, its name, description and block sizes if
/// requested, and ACK.
///
/// # Errors
///
/// `WriteFault` if the writer failed.
pub(crate) fn say_told<W: Write>(
    writer: &mut Counted<W>,
    export: &Export<'_>,
    terms: Terms,
    option: u32,
    wanted: &[u8],
) -> Result<(), WriteFault>
    requires { HasShortName (export_record export.now) }
    ensures { Writes W.contents writer.old writer.new (told_by export.now terms option wanted.now) result }
{
    say_head(writer, option, INFO, 12)?;
    say_export_info(writer, export, terms)?;
    say_wanted(writer, export, option, wanted)?;
    acknowledge(writer, option)
}

// Whether the client requested the information of that type.
fn wants_info(wanted: &[u8], kind: u8) -> bool
    ensures { result ≡ wants_info kind wanted.now }
{
    let mut rest = wanted;
    'facts: while let [high, low, more @ ..] = rest {
        if *high == 0 && *low == kind {
            return true;
        }
        rest = more;
    }
    false
}
