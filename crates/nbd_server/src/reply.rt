//! Replies to requests.
ghost use Rattle.std.specs.Prelude.{◌≡◌, ◌<◌, ◌≤◌, ◌+◌, ◌^◌, [], length};
ghost use Rattle.program_io.specs.Counted.{Writes};
ghost use Rattle.nbd_protocol.specs.Headers.{most_length};
ghost use Rattle.nbd_server.specs.Replies.{chunked_reply, content_chunk, read_chunk, agreed_reply, simple_head, simple_reply};
ghost use Rattle.nbd_server.specs.Transmission.{IsPart, IsSendable, reply_data, data_outcome};

use crate::error_text::ErrorText;
use crate::failure::Failure;
use nbd_protocol::{
    Agreement, BLOCK_STATUS, Header, put32, put64, say_data, say_error, say_none, say_status,
};
use program_io::{Counted, WriteFault};
use std::alloc::Global;
use std::io::Write;

const MAGIC: u32 = 0x6744_6698;

/// The payload of a reply: a part of a buffer.
#[derive(Drop)]
pub(crate) struct Data {
    pub(crate) bytes: Vec<u8>,
    pub(crate) start: usize,
    pub(crate) length: usize,
}

impl Data {
    /// Returns an empty payload.
    pub(crate) fn none(alloc: Global) -> Data
        ensures value { reply_data result ≡ [] }
        ensures inside { IsPart result }
    {
        Data {
            bytes: Vec::new(alloc),
            start: 0,
            length: 0,
        }
    }

    /// Returns a payload of all these bytes.
    pub(crate) fn all(bytes: Vec<u8>) -> Data
        requires { length bytes.items ≤ most_length }
        ensures value { reply_data result ≡ bytes.items }
        ensures inside { IsPart result }
    {
        let length = bytes.len();
        Data {
            bytes,
            start: 0,
            length,
        }
    }

    /// Returns the bytes of the payload.
    pub(crate) fn part(&self) -> &[u8]
        requires { self.now.start + self.now.length ≤ length self.now.bytes.items }
        ensures { result.now ≡ reply_data self.now }
    {
        &self.bytes[self.start..self.start + self.length]
    }
}

// Writes the header of a simple reply.
fn say_head<W: Write>(writer: &mut Counted<W>, error: u32, cookie: u64) -> Result<(), WriteFault>
    ensures { Writes W.contents writer.old writer.new (simple_head error cookie) result }
{
    put32(writer, MAGIC)?;
    put32(writer, error)?;
    put64(writer, cookie)
}

// Writes a simple reply.
fn say_simple<W: Write>(
    writer: &mut Counted<W>,
    cookie: u64,
    outcome: Result<Data, Failure>,
) -> Result<(), WriteFault>
    requires { IsSendable outcome }
    ensures { Writes W.contents writer.old writer.new (simple_reply cookie (data_outcome outcome)) result }
{
    match outcome {
        Ok(data) => {
            say_head(writer, 0, cookie)?;
            writer.put(data.part())
        }
        Err(error) => say_head(writer, error.reported().number(), cookie),
    }
}

// Writes the chunk that answers a READ.
fn say_read<W: Write>(
    writer: &mut Counted<W>,
    header: Header,
    bytes: &[u8],
) -> Result<(), WriteFault>
    requires { 8 + length bytes.now < 2 ^ 32 }
    ensures { Writes W.contents writer.old writer.new (read_chunk header bytes.now) result }
{
    if bytes.is_empty() {
        return say_none(writer, header.cookie);
    }
    say_data(writer, true, header.cookie, header.offset, bytes)
}

// Writes the chunk that answers a READ or a BLOCK_STATUS.
fn say_content<W: Write>(
    writer: &mut Counted<W>,
    header: Header,
    bytes: &[u8],
) -> Result<(), WriteFault>
    requires { 8 + length bytes.now < 2 ^ 32 }
    ensures { Writes W.contents writer.old writer.new (content_chunk header bytes.now) result }
{
    if header.kind == BLOCK_STATUS {
        return say_status(writer, header.cookie, bytes);
    }
    say_read(writer, header, bytes)
}

// Writes the last chunk of a structured reply: the result or the error.
fn say_chunks<W: Write>(
    writer: &mut Counted<W>,
    header: Header,
    outcome: Result<Data, Failure>,
) -> Result<(), WriteFault>
    requires { IsSendable outcome }
    ensures { Writes W.contents writer.old writer.new (chunked_reply header (data_outcome outcome)) result }
{
    match outcome {
        Ok(data) => say_content(writer, header, data.part()),
        Err(error) => {
            let text = ErrorText::of(error);
            say_error(writer, header.cookie, error.reported(), text.as_bytes())
        }
    }
}

/// Writes the reply to a request: simple or structured, as agreed on.
///
/// # Errors
///
/// `WriteFault` if the writer failed.
pub(crate) fn say_reply<W: Write>(
    writer: &mut Counted<W>,
    agreed: Agreement,
    header: Header,
    outcome: Result<Data, Failure>,
) -> Result<(), WriteFault>
    requires { IsSendable outcome }
    ensures { Writes W.contents writer.old writer.new (agreed_reply agreed header (data_outcome outcome)) result }
{
    if header.is_chunked(agreed) {
        return say_chunks(writer, header, outcome);
    }
    say_simple(writer, header.cookie, outcome)
}
