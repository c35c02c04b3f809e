//! Writes bytes that were read as chunks of data and holes.
ghost use Rattle.std.specs.Prelude.{◌≡◌, ◌≤◌, ◌<◌, ◌+◌, ◌^◌, length, replicate, take};
ghost use Rattle.std.specs.Str.{bytes_eq};
ghost use Rattle.program_io.specs.Counted.{WritesSome};
ghost use Rattle.nbd_server.specs.Content.{AreZerosBefore, AreZerosBehind, HaveData, TellsContent, TellsData, zero_block};

use nbd_protocol::{say_data, say_hole};
use program_io::{Counted, WriteFault};
use std::io::Write;

/// The block size in bytes by which zeros are found.
pub(crate) const BLOCK: usize = 4096;

static ZEROS: [u8; 4096] = [0; 4096];

/// Returns whether all bytes of a block are zeros.
pub(crate) fn are_zeros(block: &[u8]) -> bool
    requires { length block.now ≤ 4096 }
    ensures { result ≡ bytes_eq block.now (replicate (length block.now) 0) }
{
    block == &ZEROS[..block.len()]
}

// How many zeros the bytes begin with, by whole blocks unless all bytes are zeros.
fn zeros_before(bytes: &[u8]) -> usize
    ensures { AreZerosBefore bytes.now result }
{
    let mut done = 0;
    'zeros: while done < bytes.len() {
        let end = bytes.len().min(done + BLOCK);
        if !are_zeros(&bytes[done..end]) {
            return done;
        }
        done = end;
    }
    done
}

// How many zeros the bytes end with, by whole blocks.
fn zeros_behind(bytes: &[u8]) -> usize
    ensures { AreZerosBehind bytes.now result }
{
    let mut rest = bytes.len();
    'zeros: while rest >= BLOCK {
        if !are_zeros(&bytes[rest - BLOCK..rest]) {
            return bytes.len() - rest;
        }
        rest -= BLOCK;
    }
    bytes.len() - rest
}

// Writes bytes whose first block isn't zeros: a data chunk, then a hole for the zeros at the end.
fn say_from_data<W: Write>(
    writer: &mut Counted<W>,
    last: bool,
    cookie: u64,
    at: u64,
    bytes: &[u8],
) -> Result<(), WriteFault>
    requires some { HaveData (take zero_block bytes.now) }
    requires few { 8 + length bytes.now < 2 ^ 32 }
    requires place { at + length bytes.now < 2 ^ 64 }
    ensures { WritesSome W.contents writer.old writer.new (TellsData cookie last at bytes.now) result }
{
    let behind = zeros_behind(bytes);
    if behind == 0 {
        return say_data(writer, last, cookie, at, bytes);
    }
    let size = bytes.len() - behind;
    say_data(writer, false, cookie, at, &bytes[..size])?;
    say_hole(writer, last, cookie, at + size as u64, behind as u32)
}

/// Writes the bytes of the export from `at` on. The whole blocks of 4,096 zeros at the beginning and at the end become holes;
/// if all bytes are zeros, they become one hole.
///
/// # Errors
///
/// `WriteFault` if the writer failed.
pub(crate) fn say_content<W: Write>(
    writer: &mut Counted<W>,
    last: bool,
    cookie: u64,
    at: u64,
    bytes: &[u8],
) -> Result<(), WriteFault>
    requires some { 0 < length bytes.now }
    requires few { 8 + length bytes.now < 2 ^ 32 }
    requires place { at + length bytes.now < 2 ^ 64 }
    ensures { WritesSome W.contents writer.old writer.new (TellsContent cookie last at bytes.now) result }
{
    let front = zeros_before(bytes);
    if front == bytes.len() {
        return say_hole(writer, last, cookie, at, front as u32);
    }
    if front == 0 {
        return say_from_data(writer, last, cookie, at, bytes);
    }
    say_hole(writer, false, cookie, at, front as u32)?;
    say_from_data(writer, last, cookie, at + front as u64, &bytes[front..])
}
