//! Block status of bytes that must be read for it: `verity` lines that ignore blocks of zeros.
ghost use Rattle.std.specs.Prelude.{◌≡◌, ◌<◌, ◌≤◌, ◌+◌, ◌^◌, length, IfOk, OnErr};
ghost use Rattle.allocation.specs.Refusal.{IsOutOfMemory};
ghost use Rattle.nbd_protocol.specs.Exports.{export_record};
ghost use Rattle.nbd_server.specs.Premises.{AreBytesOf};
ghost use Rattle.nbd_server.specs.Status.{IsRun, IsStatusOfBytes, TouchIgnoring};
ghost use Rattle.nbd_server.specs.Transmission.{IsStatusRead, StaysOrReads, most_look};

use crate::byte_range::read_bytes;
use crate::content::{BLOCK, are_zeros};
use crate::status::{BlockStatus, MOST_EXTENTS, first_status, push_status};
use allocation::OutOfMemory;
use block_device::BlockDev;
use nbd_protocol::Export;
use request_queue::Queue;
use std::alloc::Global;

// One read ends at a multiple of LARGE. If the client requests one extent, it ends at a multiple of SMALL, because the bytes
// after the first extent would be read for nothing.
const LARGE: u64 = 262_144;

const SMALL: u64 = 65_536;

// How many bytes from `at` on one read covers at most.
fn room_at(at: u64, one: bool) -> u64
    ensures { result ≡ most_look at one }
{
    if one {
        return SMALL - at % SMALL;
    }
    LARGE - at % LARGE
}

// The first extent of the bytes: all zeros, or no block of zeros. Blocks end at multiples of their size.
fn first_run(at: u64, bytes: &[u8]) -> BlockStatus
    requires some { 0 < length bytes.now }
    requires few { length bytes.now ≤ 262144 }
    ensures { IsRun at bytes.now result }
{
    let mut done = bytes.len().min(BLOCK - (at % 4096) as usize);
    let zeros = are_zeros(&bytes[..done]);
    'run: while done < bytes.len() {
        let end = bytes.len().min(done + BLOCK);
        let same = are_zeros(&bytes[done..end]);
        if same != zeros {
            return BlockStatus {
                count: done as u32,
                zeros,
            };
        }
        done = end;
    }
    BlockStatus {
        count: done as u32,
        zeros,
    }
}

// Returns the status of bytes that were read from offset `at` on. If `one` is set, only the first extent is reported.
fn tell_runs(alloc: Global, at: u64, bytes: &[u8], one: bool) -> Result<Vec<u8>, OutOfMemory>
    requires some { 0 < length bytes.now }
    requires few { length bytes.now ≤ 262144 }
    requires place { at + length bytes.now < 2 ^ 64 }
    ensures ok { IfOk result (IsStatusOfBytes at bytes.now one) }
    ensures err { OnErr result (IsOutOfMemory 4) }
{
    let first = first_run(at, bytes);
    let mut told = first_status(alloc, first)?;
    if one {
        return Ok(told);
    }
    let mut done = first.count as usize;
    for _extent in 1..MOST_EXTENTS {
        if done == bytes.len() {
            return Ok(told);
        }
        let run = first_run(at + done as u64, &bytes[done..]);
        push_status(&mut told, run)?;
        done += run.count as usize;
    }
    Ok(told)
}

/// Reads the first bytes of a range on lines that ignore blocks of zeros, and returns their status: which of them are zeros.
///
/// Bytes that can't be read are reported as data. A client that reads them gets the error; a client that doesn't can go on.
///
/// # Errors
///
/// `OutOfMemory` if the allocator refused memory for the status.
pub(crate) fn read_status<D: BlockDev>(
    alloc: Global,
    queue: &mut Queue<D>,
    export: &Export<'_>,
    offset: u64,
    count: u32,
    one: bool,
) -> Result<Vec<u8>, OutOfMemory>
    requires bytes { AreBytesOf queue.old.stack.config (export_record export.now) offset count }
    requires some { 0 < count }
    requires ignoring { TouchIgnoring queue.old.stack.config (export_record export.now) offset count }
    ensures ok { IfOk result (IsStatusRead (export_record export.now) queue.old offset count one queue.new) }
    ensures err { OnErr result (StaysOrReads (export_record export.now) queue.old offset count one queue.new) }
    ensures memory { OnErr result (IsOutOfMemory 4) }
{
    let room = room_at(offset, one).min(u64::from(count));
    let size = room as u32;
    match read_bytes(alloc, queue, export, offset, size) {
        Ok(content) => tell_runs(alloc, offset, content.part(), one),
        Err(_error) => {
            let unknown = BlockStatus {
                count: size,
                zeros: false,
            };
            first_status(alloc, unknown)
        }
    }
}
