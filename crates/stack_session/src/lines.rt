//! A session over any server of lines: reads the input, splits it into lines, and has each line served.
ghost use Rattle.std.specs.Prelude.{false, ◌≡◌, ◌≢◌, ℕ, ◌+◌, ◌≤◌, ◌<◌, List, [], ◌∷◌, ◌++◌, length, take, IfOk, OnOk, OnErr, MatchOption};
ghost use Rattle.allocation.specs.Refusal.{IsOutOfMemory};
ghost use Rattle.stack_session.specs.Session.{AddsText, HandsOnText, IsEnding, IsOneLine, IsRefusedIn, IsRemembered, IsSessionOf, IsStoppedIn, KeepsAtMost, OnTooLong, ServesFront, ServesWhole, IsWithinLine, StopsWriting, WritesReply, StopsLine};

use crate::fault::SessionFault;
use allocation::append;
use program_io::{Counted, WriteFault};
use std::alloc::Global;
use std::io;
use std::io::{Read, Write};

/// The most bytes of input: 16 MiB.
pub const LIMIT: usize = 16777216;

const PIECE: usize = 4096;

/// A server of a session's lines.
pub trait LineServer {
    // In the first state the line may get this reply, and leave the server in the second state.
    ghost replies: { Self → List ℕ → List ℕ → Self → Type 0 };

    /// Writes the reply to one line.
    ///
    /// # Errors
    ///
    /// `WriteFault` if the writer failed.
    fn serve_line<W: Write>(
        &mut self,
        alloc: Global,
        line: &[u8],
        writer: &mut Counted<W>,
    ) -> Result<(), WriteFault>
        requires { length line.now ≤ LIMIT }
        ensures { WritesReply W.contents writer.old writer.new (λ reply. replies self.old line.now reply self.new) result };
}

// Splits off the first line at its newline.
fn first_line(bytes: &[u8]) -> Option<(&[u8], &[u8])>
    ensures { MatchOption result (IsOneLine bytes.now)
        (λ cut. IsOneLine cut.0.now × (bytes.now ≡ cut.0.now ++ 10 ∷ cut.1.now)) }
{
    let end = bytes.iter().position(|byte| *byte == b'\n')?;
    Some((&bytes[..end], &bytes[end + 1..]))
}

// Keeps the beginning of a line.
fn keep(rest: &mut Vec<u8>, start: &[u8]) -> Result<(), SessionFault>
    ensures ok { OnOk result (rest.new.items ≡ rest.old.items ++ start.now) }
    ensures kind { OnErr result (result ≡ Err SessionFault.NoMemory) }
    ensures err { OnErr result (IsOutOfMemory (length start.now)) }
{
    match append(rest, start) {
        Ok(()) => Ok(()),
        Err(_refused) => Err(SessionFault::NoMemory),
    }
}

// Serves the line that ends with these bytes.
fn end_line<S: LineServer, W: Write>(
    alloc: Global,
    server: &mut S,
    rest: &mut Vec<u8>,
    end: &[u8],
    writer: &mut Counted<W>,
) -> Result<(), SessionFault>
    requires line { IsOneLine (rest.old.items ++ end.now) }
    requires room { length rest.old.items + length end.now ≤ LIMIT }
    ensures ok { OnOk result ((rest.new.items ≡ []) × AddsText W.contents writer.old writer.new
        (λ reply. S.replies server.old (rest.old.items ++ end.now) reply server.new)) }
    ensures stopped { StopsLine S.replies server.old server.new W.contents writer.old writer.new rest.old end.now result }
    ensures writer { IsRemembered writer.old writer.new result }
    ensures kinds { IsStoppedIn result }
{
    if rest.is_empty() {
        server.serve_line(alloc, end, writer)?;
        return Ok(());
    }
    keep(rest, end)?;
    server.serve_line(alloc, rest.as_slice(), writer)?;
    rest.clear();
    Ok(())
}

// Serves the lines that end in this piece, and keeps the rest.
fn feed<S: LineServer, W: Write>(
    alloc: Global,
    server: &mut S,
    rest: &mut Vec<u8>,
    piece: &[u8],
    writer: &mut Counted<W>,
) -> Result<(), SessionFault>
    requires line { IsOneLine rest.old.items }
    requires room { length rest.old.items + length piece.now ≤ LIMIT }
    ensures ok { OnOk result (KeepsAtMost rest.old.items piece.now rest.new.items
        × AddsText W.contents writer.old writer.new (ServesWhole S.replies server.old (rest.old.items ++ piece.now) server.new rest.new.items)) }
    ensures stopped { StopsLine S.replies server.old server.new W.contents writer.old writer.new rest.old piece.now result }
    ensures writer { IsRemembered writer.old writer.new result }
    ensures kinds { IsStoppedIn result }
{
    let mut left = piece;
    'lines: while let Some((line, after)) = first_line(left) {
        end_line(alloc, server, rest, line, writer)?;
        left = after;
    }
    keep(rest, left)
}

// Serves the part of the piece that is within the limit, of which `left` bytes are left, and returns how many are left then.
// Replies are flushed before input that is too long is refused.
fn absorb<S: LineServer, W: Write>(
    alloc: Global,
    server: &mut S,
    rest: &mut Vec<u8>,
    left: usize,
    piece: &[u8],
    writer: &mut Counted<W>,
) -> Result<usize, SessionFault>
    requires line { IsOneLine rest.old.items }
    requires room { length rest.old.items + left ≤ LIMIT }
    ensures ok { IfOk result (λ after. IsWithinLine left piece.now rest.new.items after
        × AddsText W.contents writer.old writer.new (ServesWhole S.replies server.old (rest.old.items ++ piece.now) server.new rest.new.items)) }
    ensures too_long { OnTooLong result ((left < length piece.now)
        × HandsOnText W.contents writer.old writer.new (ServesWhole S.replies server.old (rest.old.items ++ take left piece.now) server.new rest.new.items)) }
    ensures stopped { StopsWriting W.contents writer.old writer.new (ServesFront S.replies server.old (rest.old.items ++ take left piece.now) server.new) result }
    ensures writer { IsRemembered writer.old writer.new result × (result ≢ Err SessionFault.ReadFault) × IsRefusedIn result }
{
    if piece.len() > left {
        feed(alloc, server, rest, &piece[..left], writer)?;
        writer.flush()?;
        return Err(SessionFault::TooLong);
    }
    feed(alloc, server, rest, piece, writer)?;
    Ok(left - piece.len())
}

/// Serves the lines of the input. The last line may lack its newline.
///
/// Replies are flushed before each call of the reader, and at the end.
///
/// # Errors
///
/// - `ReadFault` if the reader failed, or was called 2^24 + 1 times.
/// - `WriteFault` if the writer failed.
/// - `TooLong` if the input has more than 16 MiB.
/// - `NoMemory` if an allocation of at most 16 MiB was refused.
pub fn serve_lines<S: LineServer, R: Read, W: Write>(
    alloc: Global,
    server: &mut S,
    reader: &mut Counted<R>,
    writer: &mut Counted<W>,
) -> Result<(), SessionFault>
    requires reader { reader.old.failed ≡ false }
    requires writer { writer.old.failed ≡ false }
    ensures session { IsSessionOf S.replies server.old server.new R.remaining W.contents reader.old writer.old reader.new writer.new result }
    ensures ending { IsEnding reader.old reader.new writer.new result }
{
    let mut rest = Vec::new(alloc);
    let mut left = LIMIT;
    let mut piece = [0u8; PIECE];
    for _turn in 0..LIMIT + 1 {
        writer.flush()?;
        match reader.read(&mut piece) {
            Ok(0) => {
                server.serve_line(alloc, rest.as_slice(), writer)?;
                writer.flush()?;
                return Ok(());
            }
            Ok(n) => match absorb(alloc, server, &mut rest, left, &piece[..n], writer) {
                Ok(after) => left = after,
                Err(fault) => return Err(fault),
            },
            Err(error) => {
                if error.kind() != io::ErrorKind::Interrupted {
                    return Err(SessionFault::ReadFault);
                }
            }
        }
    }
    writer.flush()?;
    Err(SessionFault::ReadFault)
}
