//! A READ whose reply is sent piece by piece.
ghost use Rattle.std.specs.Prelude.{◌≡◌, ◌<◌, ◌≤◌, ◌+◌, ◌*◌, ◌%◌, ◌^◌, ◌==◌, length, true, IfErr, IfOk, IfSome, OnErr, OnOk};
ghost use Rattle.program_io.specs.Counted.{Writes, WritesSome};
ghost use Rattle.nbd_protocol.specs.Exports.{export_record};
ghost use Rattle.nbd_protocol.specs.Chunks.{hole_chunk};
ghost use Rattle.nbd_server.specs.Content.{TellsContent};
ghost use Rattle.nbd_server.specs.Premises.{AreBytesOf, ArePieceBytes, IsDeliveryRest, ReadsTo};
ghost use Rattle.nbd_server.specs.Status.{touched};
ghost use Rattle.nbd_server.specs.Reads.{FailsToReadBytes};
ghost use Rattle.nbd_server.specs.Delivery.{AreNextBytes, IsDeliveryPiece, IsReadPiece, IsStuck, SendsPiece, WritesDelivery, WritesPiece, delivery_of, has_df};

use crate::byte_range::touched;
use crate::content::say_content;
use crate::error_text::ErrorText;
use crate::failure::Failure;
use crate::fetch::read_into;
use crate::known_faults::SectorFault;
use crate::piece::piece_sectors;
use crate::progress::Progress;
use crate::room::Room;
use crate::status::status_at;
use block_device::BlockDev;
use nbd_protocol::{Agreement, Command, Export, Header, say_error_at, say_hole};
use program_io::{Counted, WriteFault};
use request_queue::Queue;
use stack_config::Config;
use std::io::Write;

const SECTOR: u64 = 512;

// The flag of a READ that wants its bytes in one chunk.
const DONT_FRAGMENT: u16 = 4;

/// The byte range and the cookie of a READ whose reply is sent piece by piece.
#[derive(Clone, Copy, Debug, PartialEq, Eq)]
pub(crate) struct Delivery {
    pub(crate) cookie: u64,
    pub(crate) offset: u64,
    pub(crate) count: u32,
}

/// The next piece: what is answered before it, and its size in bytes.
#[derive(Clone, Copy, Debug, PartialEq, Eq)]
pub(crate) struct Piece {
    pub(crate) progress: Progress,
    pub(crate) size: u32,
}

// Whether the client wants the bytes in one chunk.
fn has_df(header: Header) -> bool
    ensures { result ≡ has_df header }
{
    header.flags / DONT_FRAGMENT % 2 == 1
}

impl Delivery {
    /// Returns the READ that is answered piece by piece: a valid one of at least one byte, without DF, if structured replies
    /// are agreed on.
    pub(crate) fn of(export: &Export<'_>, agreed: Agreement, header: Header) -> Option<Delivery>
        ensures value { result ≡ delivery_of (export_record export.now) agreed header }
        ensures within { IfSome result (λ d. d.offset + d.count ≤ export.now.size) }
    {
        if !header.is_chunked(agreed) || has_df(header) {
            return None;
        }
        match header.command(export, agreed) {
            Ok(Command::Read { offset, length }) => {
                if length == 0 {
                    return None;
                }
                Some(Delivery {
                    cookie: header.cookie,
                    offset,
                    count: length,
                })
            }
            _ => None,
        }
    }

    /// Returns the offset of the next byte in the export.
    pub(crate) fn at(self, progress: Progress) -> u64
        requires { IsDeliveryRest self progress }
        ensures { result ≡ self.offset + progress.done }
    {
        self.offset + u64::from(progress.done)
    }

    /// Returns the size of the next piece.
    pub(crate) fn piece_len(self, config: &Config, export: &Export<'_>, progress: Progress) -> u32
        requires bytes { AreBytesOf config.now (export_record export.now) self.offset self.count }
        requires some { progress.done < self.count }
        ensures { IsDeliveryPiece config.now export.now.device.0 self progress result }
    {
        let at = self.at(progress);
        let left = self.count - progress.done;
        let sectors = piece_sectors(config, export, at, left, progress.most());
        let room = SECTOR * sectors - at % SECTOR;
        room.min(u64::from(left)) as u32
    }
}

// Writes the chunks of a piece, and flushes the writer.
fn say_piece<W: Write>(
    writer: &mut Counted<W>,
    delivery: Delivery,
    progress: Progress,
    content: &[u8],
) -> Result<(), WriteFault>
    requires rest { IsDeliveryRest delivery progress }
    requires piece { AreNextBytes delivery progress (length content.now) }
    ensures { WritesSome W.contents writer.old writer.new
        (TellsContent delivery.cookie (progress.done + length content.now == delivery.count) (delivery.offset + progress.done) content.now) result }
{
    let done = progress.done + content.len() as u32;
    let at = delivery.at(progress);
    let last = done == delivery.count;
    say_content(writer, last, delivery.cookie, at, content)?;
    writer.flush()
}

// Writes a hole of `size` bytes, and flushes the writer.
fn say_zeros<W: Write>(
    writer: &mut Counted<W>,
    delivery: Delivery,
    progress: Progress,
    size: u32,
) -> Result<(), WriteFault>
    requires rest { IsDeliveryRest delivery progress }
    requires piece { AreNextBytes delivery progress size }
    ensures { Writes W.contents writer.old writer.new
        (hole_chunk (progress.done + size == delivery.count) delivery.cookie (delivery.offset + progress.done) size) result }
{
    let done = progress.done + size;
    let at = delivery.at(progress);
    say_hole(writer, done == delivery.count, delivery.cookie, at, size)?;
    writer.flush()
}

// Reads the sectors that a byte range touches into the beginning of a buffer.
fn read_to<D: BlockDev>(
    queue: &mut Queue<D>,
    export: &Export<'_>,
    at: u64,
    size: u32,
    out: &mut [u8],
) -> Result<(), Failure>
    requires bytes { AreBytesOf queue.old.stack.config (export_record export.now) at size }
    requires room { 512 * touched at size ≤ length out.old }
    ensures ok { OnOk result (ReadsTo (export_record export.now) queue.old at size out.new queue.new) }
    ensures err { IfErr result (FailsToReadBytes (export_record export.now) queue.old at size queue.new) }
{
    let count = touched(at, size);
    read_into(
        queue,
        export,
        at / 512,
        count as u64,
        &mut out[..512 * count],
    )
}

/// Reads the sectors that a piece touches into the beginning of the buffer.
pub(crate) fn read_piece<D: BlockDev>(
    room: &mut Room,
    queue: &mut Queue<D>,
    export: &Export<'_>,
    at: u64,
    size: u32,
) -> Result<(), Failure>
    requires { ArePieceBytes queue.old.stack.config (export_record export.now) at size }
    ensures ok { OnOk result (ReadsTo (export_record export.now) queue.old at size room.new.bytes queue.new) }
    ensures inside { at % 512 + size ≤ length room.new.bytes }
    ensures err { IfErr result (FailsToReadBytes (export_record export.now) queue.old at size queue.new) }
{
    read_to(queue, export, at, size, &mut room.bytes)
}

// Reads the next piece and answers it. Returns the error if the piece lies in one sector that can't be read; the reply has
// ended then.
fn deliver_piece<D: BlockDev, W: Write>(
    room: &mut Room,
    queue: &mut Queue<D>,
    export: &Export<'_>,
    delivery: Delivery,
    piece: Piece,
    writer: &mut Counted<W>,
) -> Result<Result<Progress, Failure>, WriteFault>
    requires bytes { AreBytesOf queue.old.stack.config (export_record export.now) delivery.offset delivery.count }
    requires piece { IsReadPiece queue.old.stack.config (export_record export.now) delivery piece.progress piece.size }
    ensures ok { IfOk result (WritesPiece W.contents writer.old writer.new export.now delivery piece.progress queue.old queue.new) }
    ensures err { OnErr result (SendsPiece (export_record export.now) delivery piece.progress queue.old queue.new) }
    ensures kept { IfOk result (λ _. writer.new.failed ≡ writer.old.failed) }
    ensures failed { OnErr result (writer.new.failed ≡ true) }
{
    let progress = piece.progress;
    let size = piece.size;
    let at = delivery.at(progress);
    match read_piece(room, queue, export, at, size) {
        Ok(()) => {
            let content = room.part((at % SECTOR) as usize, size as usize);
            say_piece(writer, delivery, progress, content)?;
            Ok(Ok(progress.after(size)))
        }
        Err(error) => {
            let lost = match progress.again(at, size, error) {
                Ok(next) => return Ok(Ok(next)),
                Err(lost) => lost,
            };
            let text = ErrorText::of(lost);
            let told = text.as_bytes();
            say_error_at(writer, delivery.cookie, at, lost.reported(), told)?;
            Ok(Err(lost))
        }
    }
}

// Answers the next piece. If it begins with zeros of the lines, these are sent as a hole, and nothing is read.
fn deliver_next<D: BlockDev, W: Write>(
    room: &mut Room,
    queue: &mut Queue<D>,
    export: &Export<'_>,
    delivery: Delivery,
    progress: Progress,
    writer: &mut Counted<W>,
) -> Result<Result<Progress, Failure>, WriteFault>
    requires bytes { AreBytesOf queue.old.stack.config (export_record export.now) delivery.offset delivery.count }
    requires some { progress.done < delivery.count }
    ensures ok { IfOk result (WritesPiece W.contents writer.old writer.new export.now delivery progress queue.old queue.new) }
    ensures err { OnErr result (SendsPiece (export_record export.now) delivery progress queue.old queue.new) }
    ensures kept { IfOk result (λ _. writer.new.failed ≡ writer.old.failed) }
    ensures failed { OnErr result (writer.new.failed ≡ true) }
{
    let config = queue.stack().config();
    let size = delivery.piece_len(config, export, progress);
    let at = delivery.at(progress);
    let status = status_at(config, export, at, size);
    if status.zeros {
        say_zeros(writer, delivery, progress, status.count)?;
        return Ok(Ok(progress.after(status.count)));
    }
    let piece = Piece { progress, size };
    deliver_piece(room, queue, export, delivery, piece, writer)
}

/// Answers a READ piece by piece, up to the first sector that can't be read. Each piece is sent as soon as it is read.
///
/// A piece that can't be read is read again by pieces of at most 8 sectors, and one of these sector by sector. Zeros are sent as
/// holes. If a piece begins with zeros of `zero` lines, these aren't read. Returns the fault that the reply reports as an
/// input/output error, if there is one.
///
/// # Errors
///
/// `WriteFault` if the writer failed.
pub(crate) fn deliver<D: BlockDev, W: Write>(
    room: &mut Room,
    queue: &mut Queue<D>,
    export: &Export<'_>,
    delivery: Delivery,
    writer: &mut Counted<W>,
) -> Result<Option<SectorFault>, WriteFault>
    requires { AreBytesOf queue.old.stack.config (export_record export.now) delivery.offset delivery.count }
    ensures reply { IfOk result (WritesDelivery W.contents writer.old writer.new export.now delivery queue.old queue.new) }
    ensures kept { IfOk result (λ _. writer.new.failed ≡ writer.old.failed) }
    ensures failed { OnErr result (writer.new.failed ≡ true) }
    ensures stuck { OnErr result (IsStuck (export_record export.now) delivery queue.old queue.new) }
{
    let mut progress = Progress::none();
    'pieces: while progress.done < delivery.count {
        match deliver_next(room, queue, export, delivery, progress, writer)? {
            Ok(next) => progress = next,
            Err(error) => return Ok(error.fault()),
        }
    }
    Ok(None)
}
