//! A CACHE.
ghost use Rattle.std.specs.Prelude.{◌<◌, IfErr, IfOk, OnOk};
ghost use Rattle.nbd_protocol.specs.Exports.{export_record};
ghost use Rattle.nbd_server.specs.Premises.{AreBytesOf};
ghost use Rattle.nbd_server.specs.Prefetch.{FailsPart, FailsToPrefetch, IsPrefetched, ReadsPart, ServesCache};
ghost use Rattle.nbd_server.specs.Transmission.{IsSendable, data_outcome};

use crate::delivery::Delivery;
use crate::failure::Failure;
use crate::progress::Progress;
use crate::reply::Data;
use crate::room::Room;
use crate::undivided::read_undivided;
use block_device::BlockDev;
use nbd_protocol::{Export, MOST_LENGTH};
use request_queue::Queue;

// Reads the next part of a byte range, and drops its bytes.
fn prefetch_next<D: BlockDev>(
    room: &mut Room,
    queue: &mut Queue<D>,
    export: &Export<'_>,
    range: Delivery,
    progress: Progress,
) -> Result<Progress, Failure>
    requires bytes { AreBytesOf queue.old.stack.config (export_record export.now) range.offset range.count }
    requires some { progress.done < range.count }
    ensures ok { IfOk result (ReadsPart (export_record export.now) range progress queue.old queue.new) }
    ensures err { IfErr result (FailsPart (export_record export.now) range progress queue.old queue.new) }
{
    let config = queue.stack().config();
    let size = range.piece_len(config, export, progress);
    let at = range.at(progress);
    let _data = read_undivided(room, queue, export, at, size)?;
    Ok(progress.after(size))
}

// Reads a byte range part by part, up to the first part that fails, and drops its bytes.
fn prefetch_range<D: BlockDev>(
    room: &mut Room,
    queue: &mut Queue<D>,
    export: &Export<'_>,
    range: Delivery,
) -> Result<(), Failure>
    requires { AreBytesOf queue.old.stack.config (export_record export.now) range.offset range.count }
    ensures ok { OnOk result (IsPrefetched (export_record export.now) range queue.old queue.new) }
    ensures err { IfErr result (FailsToPrefetch (export_record export.now) range queue.old queue.new) }
{
    let mut progress = Progress::none();
    'parts: while progress.done < range.count {
        progress = prefetch_next(room, queue, export, range, progress)?;
    }
    Ok(())
}

/// Reads the first bytes of a range, of at most `MOST_LENGTH`, part by part, and drops them.
///
/// # Errors
///
/// That of the first part that fails.
pub(crate) fn prefetch<D: BlockDev>(
    room: &mut Room,
    queue: &mut Queue<D>,
    export: &Export<'_>,
    offset: u64,
    length: u32,
) -> Result<Data, Failure>
    requires { AreBytesOf queue.old.stack.config (export_record export.now) offset length }
    ensures value { ServesCache (export_record export.now) queue.old offset length (data_outcome result) queue.new }
    ensures inside { IsSendable result }
{
    let range = Delivery {
        cookie: 0,
        offset,
        count: length.min(MOST_LENGTH),
    };
    prefetch_range(room, queue, export, range)?;
    Ok(Data::none(room.alloc))
}
