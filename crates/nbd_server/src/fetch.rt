//! Reads sectors of the export.
ghost use Rattle.std.specs.Prelude.{◌≡◌, ◌*◌, length, IfErr, IfOk, OnOk};
ghost use Rattle.nbd_protocol.specs.Exports.{export_record};
ghost use Rattle.nbd_server.specs.Premises.{AreSectorsOf};
ghost use Rattle.nbd_server.specs.Sectors.{FailsToFetch, IsFetched};

use crate::failure::Failure;
use allocation::zeros;
use block_device::BlockDev;
use nbd_protocol::Export;
use request_queue::{BytesFault, Queue};
use std::alloc::Global;

/// Reads `count` sectors from `first` on into a buffer of this size.
pub(crate) fn read_into<D: BlockDev>(
    queue: &mut Queue<D>,
    export: &Export<'_>,
    first: u64,
    count: u64,
    out: &mut [u8],
) -> Result<(), Failure>
    requires sectors { AreSectorsOf queue.old.stack.config (export_record export.now) first count }
    requires room { length out.old ≡ count * 512 }
    ensures ok { OnOk result (IsFetched queue.old export.now.device.0 first count out.new queue.new) }
    ensures err { IfErr result (λ error. FailsToFetch queue.old export.now.device.0 first count error queue.new) }
{
    match queue.read_bytes(export.device, first, out) {
        Ok(()) => Ok(()),
        Err(BytesFault::Failed(piece)) => {
            let config = queue.stack().config();
            Err(Failure::of_read(config, export.device, piece))
        }
        Err(BytesFault::Refused(_fault)) => unreachable!(),
    }
}

/// Reads `count` sectors from `first` on into a new buffer.
///
/// # Errors
///
/// - `Faulty` if the stack refused the access or a device failed.
/// - `NoMemory` if an allocation was refused.
pub(crate) fn fetch<D: BlockDev>(
    alloc: Global,
    queue: &mut Queue<D>,
    export: &Export<'_>,
    first: u64,
    count: u64,
) -> Result<Vec<u8>, Failure>
    requires { AreSectorsOf queue.old.stack.config (export_record export.now) first count }
    ensures ok { IfOk result (λ bytes. IsFetched queue.old export.now.device.0 first count bytes.items queue.new) }
    ensures err { IfErr result (λ error. FailsToFetch queue.old export.now.device.0 first count error queue.new) }
{
    let mut bytes = zeros(alloc, count as usize * 512)?;
    read_into(queue, export, first, count, bytes.as_mut_slice())?;
    Ok(bytes)
}
