//! The chunks of a structured reply.
ghost use Rattle.std.specs.Prelude.{◌≡◌, ◌<◌, ◌+◌, ◌^◌, length};
ghost use Rattle.program_io.specs.Counted.{Writes};
ghost use Rattle.nbd_protocol.specs.Chunks.{chunk_head, data_chunk, error_at_chunk, error_chunk, error_told, flag_of_last, hole_chunk, none_chunk, status_chunk};

use crate::numbers::{put16, put32, put64};
use crate::request_error::RequestError;
use program_io::{Counted, WriteFault};
use std::io::Write;

const MAGIC: u32 = 0x668e_33ef;

// The number of the only metadata context.
const CONTEXT: u32 = 1;

// The flag of a reply's last chunk.
const DONE: u16 = 1;

// The chunk types.
const NONE: u16 = 0;

const OFFSET_DATA: u16 = 1;

const OFFSET_HOLE: u16 = 2;

const BLOCK_STATUS: u16 = 5;

const ERROR: u16 = 0x8001;

const ERROR_OFFSET: u16 = 0x8002;

fn flag_of_last(done: bool) -> u16
    ensures { result ≡ flag_of_last done }
{
    if done { DONE } else { 0 }
}

// Writes the header of a chunk with `count` bytes of payload.
fn say_head<W: Write>(
    writer: &mut Counted<W>,
    done: bool,
    kind: u16,
    cookie: u64,
    count: u32,
) -> Result<(), WriteFault>
    ensures { Writes W.contents writer.old writer.new (chunk_head done kind cookie count) result }
{
    put32(writer, MAGIC)?;
    put16(writer, flag_of_last(done))?;
    put16(writer, kind)?;
    put64(writer, cookie)?;
    put32(writer, count)
}

/// Writes NONE, the last chunk of a reply.
///
/// # Errors
///
/// `WriteFault` if the writer failed.
pub fn say_none<W: Write>(writer: &mut Counted<W>, cookie: u64) -> Result<(), WriteFault>
    ensures { Writes W.contents writer.old writer.new (none_chunk cookie) result }
{
    say_head(writer, true, NONE, cookie, 0)
}

/// Writes OFFSET_DATA: bytes of the export from `offset` on. The chunk is the reply's last if `done` is set.
///
/// # Errors
///
/// `WriteFault` if the writer failed.
pub fn say_data<W: Write>(
    writer: &mut Counted<W>,
    done: bool,
    cookie: u64,
    offset: u64,
    bytes: &[u8],
) -> Result<(), WriteFault>
    requires { 8 + length bytes.now < 2 ^ 32 }
    ensures { Writes W.contents writer.old writer.new (data_chunk done cookie offset bytes.now) result }
{
    say_head(writer, done, OFFSET_DATA, cookie, 8 + bytes.len() as u32)?;
    put64(writer, offset)?;
    writer.put(bytes)
}

/// Writes OFFSET_HOLE: `count` bytes of the export from `offset` on are zeros. The chunk is the reply's last if `done` is set.
///
/// # Errors
///
/// `WriteFault` if the writer failed.
pub fn say_hole<W: Write>(
    writer: &mut Counted<W>,
    done: bool,
    cookie: u64,
    offset: u64,
    count: u32,
) -> Result<(), WriteFault>
    ensures { Writes W.contents writer.old writer.new (hole_chunk done cookie offset count) result }
{
    say_head(writer, done, OFFSET_HOLE, cookie, 12)?;
    put64(writer, offset)?;
    put32(writer, count)
}

/// Writes BLOCK_STATUS, the last chunk of a reply: the extent descriptors `told` of the only context.
///
/// # Errors
///
/// `WriteFault` if the writer failed.
pub fn say_status<W: Write>(
    writer: &mut Counted<W>,
    cookie: u64,
    told: &[u8],
) -> Result<(), WriteFault>
    requires { 4 + length told.now < 2 ^ 32 }
    ensures { Writes W.contents writer.old writer.new (status_chunk cookie told.now) result }
{
    say_head(writer, true, BLOCK_STATUS, cookie, 4 + told.len() as u32)?;
    put32(writer, CONTEXT)?;
    writer.put(told)
}

// Writes an error number and a message.
fn say_told<W: Write>(
    writer: &mut Counted<W>,
    error: RequestError,
    text: &[u8],
) -> Result<(), WriteFault>
    requires { length text.now < 2 ^ 16 }
    ensures { Writes W.contents writer.old writer.new (error_told error text.now) result }
{
    put32(writer, error.number())?;
    put16(writer, text.len() as u16)?;
    writer.put(text)
}

/// Writes ERROR, the last chunk of a reply, with a message in UTF-8.
///
/// # Errors
///
/// `WriteFault` if the writer failed.
pub fn say_error<W: Write>(
    writer: &mut Counted<W>,
    cookie: u64,
    error: RequestError,
    text: &[u8],
) -> Result<(), WriteFault>
    requires { length text.now < 2 ^ 16 }
    ensures { Writes W.contents writer.old writer.new (error_chunk cookie error text.now) result }
{
    say_head(writer, true, ERROR, cookie, 6 + text.len() as u32)?;
    say_told(writer, error, text)
}

/// Writes ERROR_OFFSET, the last chunk of a reply, with a message in UTF-8: the error occurs at byte `offset` of the export.
///
/// # Errors
///
/// `WriteFault` if the writer failed.
pub fn say_error_at<W: Write>(
    writer: &mut Counted<W>,
    cookie: u64,
    offset: u64,
    error: RequestError,
    text: &[u8],
) -> Result<(), WriteFault>
    requires { length text.now < 2 ^ 16 }
    ensures { Writes W.contents writer.old writer.new (error_at_chunk cookie offset error text.now) result }
{
    say_head(writer, true, ERROR_OFFSET, cookie, 14 + text.len() as u32)?;
    say_told(writer, error, text)?;
    put64(writer, offset)
}
