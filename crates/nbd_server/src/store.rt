//! Writes sectors of the export.
ghost use Rattle.std.specs.Prelude.{◌≡◌, ◌<◌, ◌≤◌, ◌+◌, ◌*◌, ◌/◌, ◌%◌, ◌^◌, length, IfErr, OnOk};
ghost use Rattle.nbd_server.specs.Sectors.{FailsToPutAtOnce, IsStored, IsStoredAtOnce};
ghost use Rattle.nbd_protocol.specs.Exports.{IsExport, export_record};
ghost use Rattle.nbd_server.specs.Premises.{AreExportSectors, HaveEnds, IsZeroRun};
ghost use Rattle.nbd_server.specs.Zeros.{FailsToPutZeros, IsRunLen, WritesInRuns, WroteRun, zeros_of};

use crate::failure::Failure;
use crate::zeros::Zeros;
use alignment::aligned_len;
use block_device::BlockDev;
use nbd_protocol::Export;
use request_queue::{BytesFault, Queue};
use std::alloc::Global;

// The most sectors of one run of zeros, and their size in bytes.
const MOST_SECTORS: u64 = 2048;

const MOST_BYTES: usize = 1048576;

/// Writes the sectors from `first` on, up to the first piece that fails.
///
/// # Errors
///
/// - `Faulty` if the stack refused the write or a device failed.
/// - `NoMemory` if an allocation was refused; some of the sectors are encrypted then.
pub(crate) fn store<D: BlockDev>(
    queue: &mut Queue<D>,
    export: &Export<'_>,
    first: u64,
    bytes: &[u8],
) -> Result<(), Failure>
    requires export { IsExport queue.old.stack.config (export_record export.now) }
    requires sectors { AreExportSectors (export_record export.now) first bytes.now }
    ensures ok { OnOk result (IsStoredAtOnce queue.old export.now.device.0 first bytes.now queue.new) }
    ensures err { IfErr result (λ error. FailsToPutAtOnce queue.old export.now.device.0 first bytes.now error queue.new) }
{
    match queue.write_bytes(export.device, first, bytes) {
        Ok(()) => Ok(()),
        Err(BytesFault::Failed(piece)) => Err(Failure::of_put(piece)),
        Err(BytesFault::Refused(_fault)) => unreachable!(),
    }
}

// Writes one run of zeros together with the rest of its first and last sector.
fn zero_run<D: BlockDev>(
    alloc: Global,
    queue: &mut Queue<D>,
    export: &Export<'_>,
    first: u64,
    zeros: &Zeros<'_>,
) -> Result<(), Failure>
    requires export { IsExport queue.old.stack.config (export_record export.now) }
    requires run { IsZeroRun zeros.now }
    requires sectors { AreExportSectors (export_record export.now) first (zeros_of zeros.now) }
    ensures ok { OnOk result (IsStored queue.old export.now.device.0 first (zeros_of zeros.now) queue.new) }
    ensures err { IfErr result (FailsToPutZeros queue.old export.now.device.0 first zeros.now queue.new) }
    ensures run { WroteRun queue.old export.now.device.0 first (zeros_of zeros.now) result queue.new }
{
    let bytes = zeros.bytes(alloc)?;
    store(queue, export, first, bytes.as_slice())
}

// The size of the next run of zeros, of `left` bytes from sector `first` on. A run splits no unit and no data block that fits
// in one run.
fn run_bytes<D: BlockDev>(queue: &Queue<D>, export: &Export<'_>, first: u64, left: usize) -> usize
    requires export { IsExport queue.now.stack.config (export_record export.now) }
    requires some { 512 ≤ left }
    requires inside { 512 * first + left ≤ export.now.size }
    ensures { IsRunLen queue.now.stack.config export.now.device.0 first left result }
{
    let config = queue.stack().config();
    let sectors = (left / 512) as u64;
    aligned_len(config, export.device, first, sectors, MOST_SECTORS) as usize * 512
}

/// Writes zeros together with the rest of their first and last sector. It writes them as `store` does, and holds one run in
/// memory at a time.
///
/// # Errors
///
/// - `Faulty` if the stack refused the write or a device failed.
/// - `NoMemory` if an allocation was refused.
pub(crate) fn store_zeros<D: BlockDev>(
    alloc: Global,
    queue: &mut Queue<D>,
    export: &Export<'_>,
    first: u64,
    zeros: &Zeros<'_>,
) -> Result<(), Failure>
    requires export { IsExport queue.old.stack.config (export_record export.now) }
    requires ends { HaveEnds zeros.now }
    requires some { 0 < zeros.now.count }
    requires sectors { AreExportSectors (export_record export.now) first (zeros_of zeros.now) }
    ensures ok { OnOk result (IsStored queue.old export.now.device.0 first (zeros_of zeros.now) queue.new) }
    ensures err { IfErr result (FailsToPutZeros queue.old export.now.device.0 first zeros.now queue.new) }
    ensures turns { WritesInRuns export.now.device.0 first (length (zeros_of zeros.now)) queue.old (zeros_of zeros.now) result queue.new }
{
    let mut at = first;
    let mut rest = *zeros;
    'runs: while rest.len() > MOST_BYTES {
        let left = rest.len();
        let size = run_bytes(queue, export, at, left);
        let count = size - rest.before.len();
        let run = Zeros {
            before: rest.before,
            count,
            behind: &[],
        };
        zero_run(alloc, queue, export, at, &run)?;
        rest = Zeros {
            before: &[],
            count: rest.count - count,
            behind: rest.behind,
        };
        at += (size / 512) as u64;
    }
    zero_run(alloc, queue, export, at, &rest)
}
