//! Writes the replies to options.
ghost use Rattle.std.specs.Prelude.{◌≡◌, flat_map};
ghost use Rattle.program_io.specs.Counted.{Writes};
ghost use Rattle.nbd_protocol.specs.Exports.{HaveShortNames, HasShortName, export_record, export_records};
ghost use Rattle.nbd_protocol.specs.OptionReplies.{acknowledged, refused, reply_head, reply_magic};
ghost use Rattle.nbd_protocol.specs.Handshake.{export_fields, list_reply, many_zeros, name_field, server_reply};

use crate::export::Export;
use crate::numbers::{put16, put32, put64};
use crate::phase::Terms;
use program_io::{Counted, WriteFault};
use std::io::Write;

const MAGIC: [u8; 8] = [0, 3, 0xe8, 0x89, 4, 0x55, 0x65, 0xa9];

/// The option that lists the exports.
pub(crate) const LIST: u32 = 3;

const ACKNOWLEDGED: u32 = 1;

const SERVER: u32 = 2;

/// The error reply to an option.
#[derive(Clone, Copy, Debug, PartialEq, Eq)]
pub enum Refusal {
    Unsupported,
    Invalid,
    Unknown,
    TooBig,
}

#[tactic(auto, unfolding(crate::specs::OptionReplies::reply_magic))]
fn put_magic<W: Write>(writer: &mut Counted<W>) -> Result<(), WriteFault>
    ensures { Writes W.contents writer.old writer.new reply_magic result }
{
    writer.put(&MAGIC)
}

/// Writes the header of a reply, for `count` bytes of data.
///
/// # Errors
///
/// `WriteFault` if the writer failed.
pub(crate) fn say_head<W: Write>(
    writer: &mut Counted<W>,
    option: u32,
    kind: u32,
    count: u32,
) -> Result<(), WriteFault>
    ensures { Writes W.contents writer.old writer.new (reply_head option kind count) result }
{
    put_magic(writer)?;
    put32(writer, option)?;
    put32(writer, kind)?;
    put32(writer, count)
}

/// Writes the ACK reply.
///
/// # Errors
///
/// `WriteFault` if the writer failed.
pub fn acknowledge<W: Write>(writer: &mut Counted<W>, option: u32) -> Result<(), WriteFault>
    ensures { Writes W.contents writer.old writer.new (acknowledged option) result }
{
    say_head(writer, option, ACKNOWLEDGED, 0)
}

/// Writes an error reply, without data.
///
/// # Errors
///
/// `WriteFault` if the writer failed.
pub fn refuse<W: Write>(
    writer: &mut Counted<W>,
    option: u32,
    refusal: Refusal,
) -> Result<(), WriteFault>
    ensures { Writes W.contents writer.old writer.new (refused refusal option) result }
{
    match refusal {
        Refusal::Unsupported => say_head(writer, option, 0x8000_0001, 0),
        Refusal::Invalid => say_head(writer, option, 0x8000_0003, 0),
        Refusal::Unknown => say_head(writer, option, 0x8000_0006, 0),
        Refusal::TooBig => say_head(writer, option, 0x8000_0009, 0),
    }
}

#[tactic(auto, unfolding(crate::specs::Handshake::many_zeros))]
fn put_zeros<W: Write>(writer: &mut Counted<W>) -> Result<(), WriteFault>
    ensures { Writes W.contents writer.old writer.new many_zeros result }
{
    writer.put(&[0; 124])
}

/// Writes the reply to EXPORT_NAME: size and flags, then 124 zeros unless the client declined them.
///
/// # Errors
///
/// `WriteFault` if the writer failed.
pub(crate) fn say_export<W: Write>(
    writer: &mut Counted<W>,
    export: &Export<'_>,
    terms: Terms,
) -> Result<(), WriteFault>
    ensures { Writes W.contents writer.old writer.new (export_fields (export_record export.now) terms) result }
{
    put64(writer, export.size)?;
    put16(writer, export.flags(terms.structured))?;
    if terms.no_zeroes {
        return Ok(());
    }
    put_zeros(writer)
}

/// Writes the replies to LIST: the name of each export, then ACK. If the option has data, the reply is an error.
///
/// # Errors
///
/// `WriteFault` if the writer failed.
pub(crate) fn say_list<W: Write>(
    writer: &mut Counted<W>,
    exports: &[Export<'_>],
    content: &[u8],
) -> Result<(), WriteFault>
    requires { HaveShortNames exports.now }
    ensures { Writes W.contents writer.old writer.new (list_reply (export_records exports.now) content.now) result }
{
    if !content.is_empty() {
        return refuse(writer, LIST, Refusal::Invalid);
    }
    say_servers(writer, exports)?;
    acknowledge(writer, LIST)
}

// Writes a SERVER reply for each export.
fn say_servers<W: Write>(writer: &mut Counted<W>, exports: &[Export<'_>]) -> Result<(), WriteFault>
    requires { HaveShortNames exports.now }
    ensures { Writes W.contents writer.old writer.new (flat_map server_reply (export_records exports.now)) result }
{
    for export in exports {
        say_server(writer, export)?;
    }
    Ok(())
}

// Writes the SERVER reply that names an export.
#[tactic(auto, unfolding(crate::specs::Handshake::server_reply))]
fn say_server<W: Write>(writer: &mut Counted<W>, export: &Export<'_>) -> Result<(), WriteFault>
    requires { HasShortName (export_record export.now) }
    ensures { Writes W.contents writer.old writer.new (server_reply (export_record export.now)) result }
{
    say_head(writer, LIST, SERVER, export.name.len() as u32 + 4)?;
    say_name(writer, export)
}

// Writes the length of the export's name, then the name.
fn say_name<W: Write>(writer: &mut Counted<W>, export: &Export<'_>) -> Result<(), WriteFault>
    requires { HasShortName (export_record export.now) }
    ensures { Writes W.contents writer.old writer.new (name_field (export_record export.now)) result }
{
    put32(writer, export.name.len() as u32)?;
    writer.put(export.name)
}
