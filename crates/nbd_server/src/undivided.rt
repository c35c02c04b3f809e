//! A READ that is answered in one reply.
ghost use Rattle.std.specs.Prelude.{◌≡◌, ◌<◌, ◌≤◌, length, IfErr, IfOk, OnOk};
ghost use Rattle.nbd_protocol.specs.Exports.{export_record};
ghost use Rattle.nbd_protocol.specs.Headers.{most_length};
ghost use Rattle.nbd_server.specs.Delivery.{IsSectorLost};
ghost use Rattle.nbd_server.specs.Premises.{AreBytesOf, HasRoom};
ghost use Rattle.nbd_server.specs.Transmission.{IsSendable, data_outcome};
ghost use Rattle.nbd_server.specs.Undivided.{AnswersRead, ExtendsRead, FailsToGather, IsGathered};

use crate::delivery::{Delivery, read_piece};
use crate::error_text::append;
use crate::failure::Failure;
use crate::progress::Progress;
use crate::reply::Data;
use crate::room::Room;
use allocation::zeros;
use block_device::BlockDev;
use nbd_protocol::Export;
use request_queue::Queue;

const SECTOR: u64 = 512;

// Reads the next piece to its place among the bytes. Returns the failure if the piece lies in one sector.
fn gather_next<D: BlockDev>(
    room: &mut Room,
    queue: &mut Queue<D>,
    export: &Export<'_>,
    read: Delivery,
    progress: Progress,
    out: &mut [u8],
) -> Result<Progress, Failure>
    requires bytes { AreBytesOf queue.old.stack.config (export_record export.now) read.offset read.count }
    requires room { HasRoom read progress out.old }
    ensures ok { IfOk result (ExtendsRead (export_record export.now) read progress queue.old out.old out.new queue.new) }
    ensures err { IfErr result (IsSectorLost (export_record export.now) read progress queue.old queue.new) }
{
    let config = queue.stack().config();
    let size = read.piece_len(config, export, progress);
    let at = read.at(progress);
    match read_piece(room, queue, export, at, size) {
        Ok(()) => {
            let content = room.part((at % SECTOR) as usize, size as usize);
            let _end = append(out, progress.done as usize, content);
            Ok(progress.after(size))
        }
        Err(error) => progress.again(at, size, error),
    }
}

// Reads a byte range into a buffer of its size, up to the first sector that can't be read alone.
fn gather<D: BlockDev>(
    room: &mut Room,
    queue: &mut Queue<D>,
    export: &Export<'_>,
    read: Delivery,
    out: &mut [u8],
) -> Result<(), Failure>
    requires bytes { AreBytesOf queue.old.stack.config (export_record export.now) read.offset read.count }
    requires room { length out.old ≡ read.count }
    ensures ok { OnOk result (IsGathered (export_record export.now) read queue.old out.new queue.new) }
    ensures err { IfErr result (FailsToGather (export_record export.now) read queue.old queue.new) }
{
    let mut progress = Progress::none();
    'pieces: while progress.done < read.count {
        progress = gather_next(room, queue, export, read, progress, out)?;
    }
    Ok(())
}

/// Reads a byte range piece by piece, as a READ whose reply is sent so.
///
/// # Errors
///
/// - The failure of the first sector that can't be read alone.
/// - `NoMemory` if the allocation of the bytes was refused.
pub(crate) fn read_undivided<D: BlockDev>(
    room: &mut Room,
    queue: &mut Queue<D>,
    export: &Export<'_>,
    offset: u64,
    count: u32,
) -> Result<Data, Failure>
    requires bytes { AreBytesOf queue.old.stack.config (export_record export.now) offset count }
    requires few { count ≤ most_length }
    ensures value { AnswersRead (export_record export.now) queue.old offset count (data_outcome result) queue.new }
    ensures inside { IsSendable result }
{
    let mut bytes = zeros(room.alloc, count as usize)?;
    let read = Delivery {
        cookie: 0,
        offset,
        count,
    };
    gather(room, queue, export, read, bytes.as_mut_slice())?;
    Ok(Data::all(bytes))
}
