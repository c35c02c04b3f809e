//! Sectors that are read or written at once, piece by piece.
ghost use Rattle.std.specs.Prelude.{◌≡◌, ◌<◌, ◌/◌, IfErr, length};
ghost use Rattle.stack_rules.specs.Names.{mapped};
ghost use Rattle.stack_meaning.specs.Meaning.{said_at};
ghost use Rattle.stack_meaning.specs.Reading.{MeetVerity};
ghost use Rattle.stack_lines.specs.Writing.{SomeEncrypt};
ghost use Rattle.request_queue.specs.AtOnce.{CanBeWritten, EndsWrite, IsNextPiece, IsRangeRead};
ghost use Rattle.request_queue.specs.PieceCalls.{GivesInTurn, HandsInTurn};
ghost use Rattle.request_queue.specs.Ranges.{HaveSectors, range_at};
ghost use Rattle.request_queue.specs.Replies.{LacksMemory, bytes_given, piece_answer, piece_ending};
ghost use Rattle.request_queue.specs.WholeRuns.{WritesWhole};

use crate::fault::PieceFault;
use crate::range::{MOST_PIECE, MOST_READ};
use alignment::aligned_len;
use block_device::BlockDev;
use stack_config::DevId;
use stack_engine::{IoFault, Stack};

// How many of the bytes that are left the next piece of at most so many sectors has: it splits no unit and no data block that
// can be read or written in one piece.
fn piece_bytes<D: BlockDev>(
    stack: &Stack<D>,
    device: DevId,
    first: u64,
    left: usize,
    most: u64,
) -> usize
    requires sectors { HaveSectors stack.now.config device.0 first left }
    requires some { 0 < left }
    requires limit { 0 < most }
    ensures { IsNextPiece most stack.now.config device.0 first left result }
{
    let sectors = (left / 512) as u64;
    aligned_len(stack.config(), device, first, sectors, most) as usize * 512
}

// The fault of a piece of so many bytes.
fn piece_fault(first: u64, bytes: usize, fault: IoFault) -> PieceFault
    ensures { result ≡ record { first = first; count = bytes / 512; fault = fault } }
{
    PieceFault {
        first,
        count: (bytes / 512) as u64,
        fault,
    }
}

/// Reads the sectors of a device from `first` on into the slice, up to the first piece that fails.
pub(crate) fn read_pieces<D: BlockDev>(
    stack: &mut Stack<D>,
    device: DevId,
    first: u64,
    out: &mut [u8],
) -> Result<(), PieceFault>
    requires { HaveSectors stack.old.config device.0 first (length out.old) }
    ensures read { IsRangeRead stack.old (range_at device.0 first (length out.old / 512)) (piece_answer result out.new) stack.new }
    ensures given { GivesInTurn D.state D.does (range_at device.0 first (length out.old / 512)) stack.old (bytes_given (piece_answer result out.new)) stack.new }
    ensures memory { IfErr result (λ piece. LacksMemory piece → MeetVerity (said_at stack.old.config (mapped device.0)) first (length out.old / 512)) }
{
    // That the blocks that are kept were checked is learned from a call.
    let _kept = stack.cached();
    let mut done = 0;
    'pieces: while done < out.len() {
        let at = first + (done / 512) as u64;
        let end = done + piece_bytes(stack, device, at, out.len() - done, MOST_READ);
        match stack.read_bytes(device, at, &mut out[done..end]) {
            Ok(()) => done = end,
            Err(fault) => return Err(piece_fault(at, end - done, fault)),
        }
    }
    Ok(())
}

/// Writes the bytes to the sectors of a device from `first` on, up to the first piece that fails.
pub(crate) fn write_pieces<D: BlockDev>(
    stack: &mut Stack<D>,
    device: DevId,
    first: u64,
    bytes: &[u8],
) -> Result<(), PieceFault>
    requires { CanBeWritten stack.old.config device.0 first bytes.now }
    ensures whole { WritesWhole stack.old (range_at device.0 first (length bytes.now / 512)) bytes.now (piece_ending result) stack.new }
    ensures steps { EndsWrite (range_at device.0 first (length bytes.now / 512)) stack.old bytes.now result stack.new }
    ensures handed { HandsInTurn D.state D.does (range_at device.0 first (length bytes.now / 512)) stack.old bytes.now (piece_ending result) stack.new }
    ensures memory { IfErr result (λ piece. LacksMemory piece → SomeEncrypt (said_at stack.old.config (mapped device.0)) first (length bytes.now / 512)) }
{
    let mut done = 0;
    'pieces: while done < bytes.len() {
        let at = first + (done / 512) as u64;
        let end = done + piece_bytes(stack, device, at, bytes.len() - done, MOST_PIECE);
        match stack.write_piece(device, at, &bytes[done..end]) {
            Ok(()) => done = end,
            Err(fault) => return Err(piece_fault(at, end - done, fault)),
        }
    }
    Ok(())
}
