//! The requests of the transmission phase.
ghost use Rattle.std.specs.Prelude.{◌≡◌, ◌<◌, ◌≤◌, ◌+◌, ◌^◌, ℕ, List, [], false, length, Ok, IfOk, IfErr, IsTrue, OnErr, OnOk};
ghost use Rattle.std.specs.Io.KnownBytes.{Consumes};
ghost use Rattle.allocation.specs.Refusal.{IsOutOfMemory};
ghost use Rattle.program_io.specs.Streams.{streams};
ghost use Rattle.nbd_protocol.specs.Exports.{ExportRecord, IsExport, export_at, export_record};
ghost use Rattle.nbd_protocol.specs.Headers.{IsWithin, most_length, payload_len};
ghost use Rattle.nbd_server.specs.Logs.{outcome_fault};
ghost use Rattle.nbd_server.specs.Premises.{AreBytesOf, IsBare};
ghost use Rattle.nbd_server.specs.Service.{EndsTurn};
ghost use Rattle.nbd_protocol.specs.Streaming.{HasRead, HasWritten, result_fault};
ghost use Rattle.nbd_server.specs.Undivided.{AnswersRead};
ghost use Rattle.nbd_server.specs.Transmission.{AreExtentsTold, FallsShort, Flushes, Handles, IsSendable, ServesCommand, ServesZero, Settles, Stays, StaysOrReads, TellsStatus, WritesGiven, data_outcome, no_bytes};
ghost use Rattle.nbd_protocol.specs.declared.phase.Phase.TheVariants.{Serving};

use crate::byte_range::{touched, write_bytes, write_zeros};
use crate::delivery::{Delivery, deliver};
use crate::extent::{ExtentKind, is_same_kind};
use crate::failure::Failure;
use crate::fast_zero::zero_fast;
use crate::known_faults::SectorFault;
use crate::prefetch::prefetch;
use crate::read_status::read_status;
use crate::reply::{Data, say_reply};
use crate::room::Room;
use crate::session_state::SessionState;
use crate::status::{bytes_at, status_of};
use crate::tally::moved_bytes;
use crate::undivided::read_undivided;
use allocation::OutOfMemory;
use block_device::{BlockDev, SyncDev};
use nbd_protocol::{
    Agreement, Command, DISCONNECT, Export, Header, Phase, RequestError, ServiceFault, fill,
    number32, skip, take_sectors,
};
use program_io::Counted;
use request_queue::Queue;
use std::alloc::Global;
use std::io::{Read, Write};

const MAGIC: u32 = 0x2560_9513;

// Receives the payload of a WRITE, and writes it.
fn take_write<D: BlockDev, R: Read>(
    alloc: Global,
    queue: &mut Queue<D>,
    export: &Export<'_>,
    offset: u64,
    len: u32,
    reader: &mut Counted<R>,
) -> Result<Result<(), Failure>, ServiceFault>
    requires bytes { AreBytesOf queue.old.stack.config (export_record export.now) offset len }
    requires allowed { IsTrue export.now.writable }
    ensures ok { IfOk result (λ outcome. (payload : List ℕ) × (length payload ≡ len) × Consumes (R.remaining reader.old.inner) (R.remaining reader.new.inner) payload
        × WritesGiven (export_record export.now) queue.old offset payload (no_bytes outcome) queue.new) }
    ensures err { IfErr result (FallsShort R.remaining reader.old reader.new len queue.old queue.new) }
    ensures reader { HasRead 0 reader.old reader.new (result_fault result) }
{
    if len == 0 {
        return Ok(Ok(()));
    }
    let sectors = touched(offset, len);
    let start = (offset % 512) as usize;
    let Some(mut bytes) = take_sectors(alloc, reader, sectors, start, len)? else {
        return Ok(Err(Failure::Refused(RequestError::NoMemory)));
    };
    Ok(write_bytes(alloc, queue, export, offset, len, bytes.as_mut_slice()))
}

// Syncs all that was written.
fn flush<D: SyncDev>(alloc: Global, queue: &mut Queue<D>) -> Result<Data, Failure>
    ensures value { Flushes queue.old (data_outcome result) queue.new }
    ensures inside { IsSendable result }
{
    match queue.sync() {
        Ok(()) => Ok(Data::none(alloc)),
        Err(fault) => Err(Failure::Unsynced(fault)),
    }
}

// Ends a write: with FUA it is synced.
fn settle<D: SyncDev>(alloc: Global, queue: &mut Queue<D>, fua: bool) -> Result<Data, Failure>
    ensures value { Settles fua (Stays queue.old) (data_outcome result) queue.new }
    ensures inside { IsSendable result }
{
    if fua {
        return flush(alloc, queue);
    }
    Ok(Data::none(alloc))
}

/// Serves a WRITE_ZEROES.
pub(crate) fn zero<D: SyncDev>(
    alloc: Global,
    queue: &mut Queue<D>,
    export: &Export<'_>,
    offset: u64,
    len: u32,
    fua: bool,
) -> Result<Data, Failure>
    requires bytes { AreBytesOf queue.old.stack.config (export_record export.now) offset len }
    requires allowed { IsTrue export.now.writable }
    ensures value { ServesZero (export_record export.now) queue.old offset len fua (data_outcome result) queue.new }
    ensures inside { IsSendable result }
{
    match write_zeros(alloc, queue, export, offset, len) {
        Ok(()) => settle(alloc, queue, fua),
        Err(error) => Err(error.of_write(queue.stack())),
    }
}

// Returns the status of a byte range. If the range begins on `verity` lines that ignore blocks of zeros, its first bytes are
// read. If `one` is set, only the first extent is reported.
fn told_of<D: BlockDev>(
    alloc: Global,
    queue: &mut Queue<D>,
    export: &Export<'_>,
    offset: u64,
    len: u32,
    one: bool,
) -> Result<Vec<u8>, OutOfMemory>
    requires bytes { AreBytesOf queue.old.stack.config (export_record export.now) offset len }
    requires some { 0 < len }
    ensures ok { IfOk result (AreExtentsTold (export_record export.now) queue.old offset len one queue.new) }
    ensures err { OnErr result (StaysOrReads (export_record export.now) queue.old offset len one queue.new) }
    ensures memory { OnErr result (IsOutOfMemory 4) }
{
    let extent = bytes_at(queue.stack().config(), export, offset, len);
    if is_same_kind(extent.kind, ExtentKind::IgnoresZeros) {
        return read_status(alloc, queue, export, offset, extent.count, one);
    }
    status_of(alloc, queue.stack().config(), export, offset, len, one)
}

// Serves a BLOCK_STATUS.
fn tell_status<D: BlockDev>(
    alloc: Global,
    queue: &mut Queue<D>,
    export: &Export<'_>,
    offset: u64,
    len: u32,
    one: bool,
) -> Result<Data, Failure>
    requires bytes { AreBytesOf queue.old.stack.config (export_record export.now) offset len }
    requires some { 0 < len }
    ensures value { TellsStatus (export_record export.now) queue.old offset len one (data_outcome result) queue.new }
    ensures inside { IsSendable result }
{
    match told_of(alloc, queue, export, offset, len, one) {
        Ok(told) => Ok(Data::all(told)),
        Err(refused) => Err(Failure::from(refused)),
    }
}

// Serves a command without payload.
fn serve_bare<D: SyncDev>(
    room: &mut Room,
    queue: &mut Queue<D>,
    export: &Export<'_>,
    command: Command,
) -> Result<Data, Failure>
    requires export { IsExport queue.old.stack.config (export_record export.now) }
    requires within { IsWithin (export_record export.now) command }
    requires bare { IsBare command }
    ensures value { ServesCommand (export_record export.now) queue.old (Ok command) [] (data_outcome result) queue.new }
    ensures inside { IsSendable result }
{
    match command {
        Command::Read { offset, length } => read_undivided(room, queue, export, offset, length),
        Command::Flush => flush(room.alloc, queue),
        Command::Status {
            offset,
            length,
            one,
        } => tell_status(room.alloc, queue, export, offset, length, one),
        Command::Hint => Ok(Data::none(room.alloc)),
        Command::Cache { offset, length } => prefetch(room, queue, export, offset, length),
        Command::Zero {
            offset,
            length,
            fua,
            fast: false,
        } => zero(room.alloc, queue, export, offset, length, fua),
        Command::Zero {
            offset,
            length,
            fua,
            fast: true,
        } => zero_fast(room.alloc, queue, export, offset, length, fua),
        Command::Write { .. } => unreachable!(),
    }
}

// Serves a request. The payload of a WRITE hasn't been received yet.
fn serve_request<D: SyncDev, R: Read>(
    room: &mut Room,
    queue: &mut Queue<D>,
    export: &Export<'_>,
    agreed: Agreement,
    header: Header,
    reader: &mut Counted<R>,
) -> Result<Result<Data, Failure>, ServiceFault>
    requires { IsExport queue.old.stack.config (export_record export.now) }
    ensures ok { IfOk result (Handles R.remaining reader.old reader.new export.now agreed header queue.old queue.new) }
    ensures err { IfErr result (FallsShort R.remaining reader.old reader.new (payload_len header) queue.old queue.new) }
    ensures reader { HasRead 0 reader.old reader.new (result_fault result) }
{
    let command = match header.command(export, agreed) {
        Ok(command) => command,
        Err(error) => {
            skip(reader, header.payload_len())?;
            return Ok(Err(Failure::Refused(error)));
        }
    };
    match command {
        Command::Write {
            offset,
            length,
            fua,
        } => match take_write(room.alloc, queue, export, offset, length, reader)? {
            Ok(()) => Ok(settle(room.alloc, queue, fua)),
            Err(error) => Ok(Err(error.of_write(queue.stack()))),
        },
        _ => {
            skip(reader, header.payload_len())?;
            Ok(serve_bare(room, queue, export, command))
        }
    }
}

// The fault by which a request ended, with the sector of that fault.
fn outcome_fault(outcome: &Result<Data, Failure>) -> Option<SectorFault>
    ensures { result ≡ outcome_fault (data_outcome outcome.now) }
{
    match outcome {
        Ok(_) => None,
        Err(error) => error.fault(),
    }
}

/// Receives a request, writes and flushes the reply, and counts the request. Returns `None` if the input ended before the request.
pub(crate) fn take_request<D: SyncDev, R: Read, W: Write>(
    state: &mut SessionState,
    queue: &mut Queue<D>,
    export: &Export<'_>,
    agreed: Agreement,
    reader: &mut Counted<R>,
    writer: &mut Counted<W>,
) -> Result<Option<Phase>, ServiceFault>
    requires export { IsExport queue.old.stack.config (export_record export.now) }
    requires flushed { writer.old.pending ≡ false }
    ensures turn { (es : List ExportRecord) → export_at es agreed.place ≡ export_record export.now → EndsTurn es (Serving agreed) queue.old queue.new state.old.log state.new.log
        (streams (R.remaining reader.old.inner) (W.contents writer.old.inner)) (streams (R.remaining reader.new.inner) (W.contents writer.new.inner)) result }
    ensures reader { HasRead 1 reader.old reader.new (result_fault result) }
    ensures writer { HasWritten writer.old writer.new (result_fault result) }
    ensures flushed { OnOk result (writer.new.pending ≡ false) }
{
    let mut bytes = [0u8; 28];
    if !fill(reader, &mut bytes)? {
        return Ok(None);
    }
    if number32(&bytes, 0) != MAGIC {
        return Err(ServiceFault::Magic);
    }
    let header = Header::of(&bytes);
    if header.kind == DISCONNECT {
        return Ok(Some(Phase::Over));
    }
    let moved = moved_bytes(header.command(export, agreed));
    match Delivery::of(export, agreed, header) {
        Some(delivery) => {
            let lost = deliver(&mut state.room, queue, export, delivery, writer)?;
            writer.flush()?;
            state.count(agreed.place, moved, lost);
            return Ok(Some(Phase::Serving { agreed }));
        }
        None => {}
    }
    let outcome = serve_request(&mut state.room, queue, export, agreed, header, reader)?;
    let met = outcome_fault(&outcome);
    say_reply(writer, agreed, header, outcome)?;
    writer.flush()?;
    state.count(agreed.place, moved, met);
    Ok(Some(Phase::Serving { agreed }))
}
