//! The NBD service of one device.
ghost use Rattle.std.specs.Prelude.{◌≡◌, IfNone, IfSome};
ghost use Rattle.nbd_protocol.specs.Exports.{HasNoExport};
ghost use Rattle.volumes.specs.Services.{ServesDevice};

use block_device::SyncDev;
use nbd_server::{Export, ServiceFault, SessionEnd, SessionLog, serve};
use program_io::Counted;
use request_queue::Queue;
use std::alloc::Global;
use std::io::{Read, Write};

/// Serves the mapped device with that name, as the only export, to a client until it ends the session or goes away between two
/// messages. Returns what [`serve`] returns.
///
/// `None` if no device has the name, the name is longer than 4,096 bytes, or the device's size in bytes doesn't fit in 64
/// bits; nothing is read or written then.
pub fn serve_device<D: SyncDev, R: Read, W: Write>(
    alloc: Global,
    queue: &mut Queue<D>,
    name: &[u8],
    reader: &mut Counted<R>,
    writer: &mut Counted<W>,
) -> Option<Result<SessionEnd, ServiceFault>>
    ensures none { IfNone result (HasNoExport queue.old.stack.config name.now) }
    ensures same { IfNone result ((queue.new ≡ queue.old) × (reader.new ≡ reader.old) × (writer.new ≡ writer.old)) }
    ensures some { IfSome result (ServesDevice R.remaining W.contents name.now queue.old queue.new reader.old reader.new writer.old writer.new) }
{
    let Some(export) = Export::of(queue.stack().config(), name) else {
        return None;
    };
    let mut log = SessionLog::none();
    Some(serve(alloc, queue, &[export], reader, writer, &mut log))
}
