//! Receives bytes from a client.
ghost use Rattle.std.specs.Prelude.{◌≡◌, ℕ, ◌<◌, ◌≤◌, ◌+◌, ◌*◌, ◌^◌, length, OnOk, IfOk, IfErr};
ghost use Rattle.nbd_protocol.specs.Streaming.{Fills, FillsPart, HasRead, HavePlace, IsShort, Takes, TakesSectors, result_fault};

use crate::fault::ServiceFault;
use allocation::zeros;
use program_io::Counted;
use std::alloc::Global;
use std::io::{ErrorKind, Read};

const PIECE: usize = 4096;

/// Fills a buffer from the reader. Returns `false` if the input ended before the first byte.
///
/// # Errors
///
/// - `Lost` if the input ended after some of the bytes.
/// - `ReadFault` if the reader failed, or was called 2^64 - 1 times.
pub fn fill<R: Read>(reader: &mut Counted<R>, buffer: &mut [u8]) -> Result<bool, ServiceFault>
    requires { 0 < length buffer.old }
    ensures filled { Fills (R.remaining reader.old.inner) (R.remaining reader.new.inner) buffer.new result }
    ensures reader { HasRead 1 reader.old reader.new (result_fault result) }
{
    let mut done = 0;
    for _turn in 0..u64::MAX {
        match reader.read(&mut buffer[done..]) {
            Ok(0) if done == 0 => return Ok(false),
            Ok(0) => return Err(ServiceFault::Lost),
            Ok(n) => {
                done += n;
                if done == buffer.len() {
                    return Ok(true);
                }
            }
            Err(error) => {
                if error.kind() != ErrorKind::Interrupted {
                    return Err(ServiceFault::ReadFault);
                }
            }
        }
    }
    Err(ServiceFault::ReadFault)
}

/// Reads `count` bytes and discards them.
///
/// # Errors
///
/// - `Lost` if the input ended before all of them.
/// - `ReadFault` if the reader failed, or was called 2^64 - 1 times.
pub fn skip<R: Read>(reader: &mut Counted<R>, count: u32) -> Result<(), ServiceFault>
    ensures ok { OnOk result (Takes count (R.remaining reader.old.inner) (R.remaining reader.new.inner)) }
    ensures err { IfErr result (IsShort count (R.remaining reader.old.inner) (R.remaining reader.new.inner)) }
    ensures reader { HasRead 0 reader.old reader.new (result_fault result) }
{
    let mut piece = [0u8; PIECE];
    let mut left = count as usize;
    'pieces: while left > 0 {
        let part = left.min(PIECE);
        if !fill(reader, &mut piece[..part])? {
            return Err(ServiceFault::Lost);
        }
        left -= part;
    }
    Ok(())
}

/// Fills `count` bytes of a buffer from `start` on. Returns `false` if the input ended before the first byte.
///
/// # Errors
///
/// - `Lost` if the input ended after some of the bytes.
/// - `ReadFault` if the reader failed, or was called 2^64 - 1 times.
pub fn fill_part<R: Read>(
    reader: &mut Counted<R>,
    buffer: &mut [u8],
    start: usize,
    count: usize,
) -> Result<bool, ServiceFault>
    requires some { 0 < count }
    requires inside { start + count ≤ length buffer.old }
    ensures filled { FillsPart R.remaining reader.old reader.new start count buffer.new result }
    ensures reader { HasRead 1 reader.old reader.new (result_fault result) }
{
    fill(reader, &mut buffer[start..start + count])
}

/// Reads `count` bytes to offset `start` of a new buffer of `sectors` sectors. Returns `None` if the allocator refused the
/// buffer; the bytes are discarded then.
///
/// # Errors
///
/// - `Lost` if the input ended before all of the bytes.
/// - `ReadFault` if the reader failed, or was called 2^64 - 1 times.
pub fn take_sectors<R: Read>(
    alloc: Global,
    reader: &mut Counted<R>,
    sectors: usize,
    start: usize,
    count: u32,
) -> Result<Option<Vec<u8>>, ServiceFault>
    requires { HavePlace sectors start count }
    ensures ok { IfOk result (TakesSectors R.remaining reader.old reader.new sectors start count) }
    ensures err { IfErr result (IsShort count (R.remaining reader.old.inner) (R.remaining reader.new.inner)) }
    ensures reader { HasRead 0 reader.old reader.new (result_fault result) }
{
    let mut bytes = match zeros(alloc, 512 * sectors) {
        Ok(bytes) => bytes,
        Err(_refused) => {
            skip(reader, count)?;
            return Ok(None);
        }
    };
    if !fill_part(reader, bytes.as_mut_slice(), start, count as usize)? {
        return Err(ServiceFault::Lost);
    }
    Ok(Some(bytes))
}
