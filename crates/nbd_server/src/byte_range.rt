//! Reads and writes byte ranges of the export by whole sectors.
ghost use Rattle.std.specs.Prelude.{◌≡◌, ◌<◌, ◌≤◌, ◌+◌, ◌*◌, ◌%◌, ◌^◌, length, replicate, Ok, IfErr, IfOk, IsTrue};
ghost use Rattle.nbd_protocol.specs.Exports.{export_record};
ghost use Rattle.nbd_server.specs.Premises.{AreBytesOf, HaveSizes, WritesFrom};
ghost use Rattle.nbd_server.specs.Status.{touched};
ghost use Rattle.nbd_server.specs.Reads.{ReadsExport};
ghost use Rattle.nbd_server.specs.Transmission.{AreEndsRead, FailsToReadEnds, IsPartInside, WritesAny, reply_data, data_outcome, no_bytes};

use crate::failure::Failure;
use crate::fetch::fetch;
use crate::reply::Data;
use crate::store::{store, store_zeros};
use crate::zeros::Zeros;
use block_device::BlockDev;
use nbd_protocol::Export;
use request_queue::Queue;
use std::alloc::Global;

/// Returns how many sectors a byte range touches.
pub(crate) fn touched(offset: u64, len: u32) -> usize
    ensures { result ≡ touched offset len }
{
    ((offset % 512) as usize + len as usize + 511) / 512
}

/// Reads the sectors that a byte range touches, and returns the range in them.
///
/// # Errors
///
/// - `Faulty` if the stack refused the access or a device failed.
/// - `NoMemory` if an allocation was refused.
pub(crate) fn read_bytes<D: BlockDev>(
    alloc: Global,
    queue: &mut Queue<D>,
    export: &Export<'_>,
    offset: u64,
    len: u32,
) -> Result<Data, Failure>
    requires { AreBytesOf queue.old.stack.config (export_record export.now) offset len }
    ensures value { ReadsExport (export_record export.now) queue.old offset len (data_outcome result) queue.new }
    ensures inside { IsPartInside result }
    ensures size { IfOk result (λ d. d.length ≡ len) }
{
    let count = touched(offset, len) as u64;
    let bytes = fetch(alloc, queue, export, offset / 512, count)?;
    Ok(Data {
        bytes,
        start: (offset % 512) as usize,
        length: len as usize,
    })
}

// The bytes before the range in its first sector, and after the range in its last sector.
#[derive(Drop)]
struct Ends {
    before: Data,
    behind: Data,
}

// Reads what the first and the last sector of a byte range hold outside the range.
fn read_ends<D: BlockDev>(
    alloc: Global,
    queue: &mut Queue<D>,
    export: &Export<'_>,
    offset: u64,
    len: u32,
) -> Result<Ends, Failure>
    requires { AreBytesOf queue.old.stack.config (export_record export.now) offset len }
    ensures ok { IfOk result (AreEndsRead (export_record export.now) queue.old offset len queue.new) }
    ensures sizes { IfOk result (λ ends. HaveSizes offset len (reply_data ends.before) (reply_data ends.behind)) }
    ensures inside { IfOk result (λ ends. IsPartInside (Ok ends.before) × IsPartInside (Ok ends.behind)) }
    ensures err { IfErr result (FailsToReadEnds (export_record export.now) queue.old offset len queue.new) }
{
    let start = (offset % 512) as usize;
    let before = read_bytes(alloc, queue, export, offset - start as u64, start as u32)?;
    let room = (512 * touched(offset, len) - (start + len as usize)) as u32;
    let behind = read_bytes(alloc, queue, export, offset + u64::from(len), room)?;
    Ok(Ends { before, behind })
}

/// Writes `len` bytes of the export. `bytes` holds them at their offset in the sectors that they touch; the rest of the first
/// and last sector is read first.
pub(crate) fn write_bytes<D: BlockDev>(
    alloc: Global,
    queue: &mut Queue<D>,
    export: &Export<'_>,
    offset: u64,
    len: u32,
    bytes: &mut [u8],
) -> Result<(), Failure>
    requires bytes { AreBytesOf queue.old.stack.config (export_record export.now) offset len }
    requires room { length bytes.old ≡ 512 * touched offset len }
    requires allowed { IsTrue export.now.writable }
    ensures { WritesFrom (export_record export.now) queue.old offset len bytes.old (no_bytes result) queue.new }
{
    let ends = read_ends(alloc, queue, export, offset, len)?;
    let start = (offset % 512) as usize;
    let end = start + len as usize;
    bytes[..start].copy_from_slice(ends.before.part());
    bytes[end..].copy_from_slice(ends.behind.part());
    store(queue, export, offset / 512, bytes)
}

/// Writes `len` zeros to the export. The rest of the first and last sector is read first.
pub(crate) fn write_zeros<D: BlockDev>(
    alloc: Global,
    queue: &mut Queue<D>,
    export: &Export<'_>,
    offset: u64,
    len: u32,
) -> Result<(), Failure>
    requires bytes { AreBytesOf queue.old.stack.config (export_record export.now) offset len }
    requires allowed { IsTrue export.now.writable }
    ensures { WritesAny (export_record export.now) queue.old offset (replicate len 0) (no_bytes result) queue.new }
{
    if len == 0 {
        return Ok(());
    }
    let ends = read_ends(alloc, queue, export, offset, len)?;
    let zeros = Zeros {
        before: ends.before.part(),
        count: len as usize,
        behind: ends.behind.part(),
    };
    store_zeros(alloc, queue, export, offset / 512, &zeros)
}
