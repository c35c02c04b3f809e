//! The session of a client: its messages in order, and the reply to each.
ghost use Rattle.std.specs.Prelude.{◌≡◌, ◌≢◌, false, OnOk};
ghost use Rattle.program_io.specs.Streams.{streams};
ghost use Rattle.nbd_protocol.specs.Exports.{AreExports, export_records};
ghost use Rattle.nbd_server.specs.FaultLines.{AnyFaults, IsReported, IsReporting, TellsTurn, turn_fault};
ghost use Rattle.nbd_server.specs.Premises.{IsGoing};
ghost use Rattle.nbd_server.specs.Service.{IsService, EndsTurn};
ghost use Rattle.nbd_server.specs.Logs.{no_log};
ghost use Rattle.nbd_protocol.specs.Streaming.{HasRead, HasWritten, result_fault};
ghost use Rattle.nbd_protocol.specs.declared.phase.Phase.TheVariants.{Greeted, Over};

use crate::fault_lines::{served_fault, tell_met, tell_more};
use crate::haggling::{take_flags, take_option};
use crate::journal::{Journal, NoJournal};
use crate::known_faults::ExportFault;
use crate::log_output::LogOutput;
use crate::session::Session;
use crate::session_end::SessionEnd;
use crate::session_log::SessionLog;
use crate::session_state::SessionState;
use crate::transmission::take_request;
use block_device::SyncDev;
use nbd_protocol::{Export, Phase, ServiceFault, export_at};
use program_io::Counted;
use request_queue::Queue;
use std::alloc::Global;
use std::io::{Read, Write};
use std::{io, mem};

const GREETING: [u8; 18] = *b"NBDMAGICIHAVEOPT\0\x03";

// Receives one message, and writes and flushes the reply. A request is counted after its reply is flushed.
fn take_message<D: SyncDev, R: Read, W: Write>(
    state: &mut SessionState,
    queue: &mut Queue<D>,
    exports: &[Export<'_>],
    phase: Phase,
    reader: &mut Counted<R>,
    writer: &mut Counted<W>,
) -> Result<Option<Phase>, ServiceFault>
    requires going { IsGoing queue.old.stack.config exports.now phase }
    requires flushed { writer.old.pending ≡ false }
    ensures turn { EndsTurn (export_records exports.now) phase queue.old queue.new state.old.log state.new.log
        (streams (R.remaining reader.old.inner) (W.contents writer.old.inner)) (streams (R.remaining reader.new.inner) (W.contents writer.new.inner)) result }
    ensures reader { HasRead 1 reader.old reader.new (result_fault result) }
    ensures writer { HasWritten writer.old writer.new (result_fault result) }
    ensures flushed { OnOk result (writer.new.pending ≡ false) }
{
    match phase {
        Phase::Greeted => take_flags(reader),
        Phase::Haggling { terms } => match take_option(exports, terms, reader, writer)? {
            Some(next) => {
                writer.flush()?;
                Ok(Some(next))
            }
            None => Ok(None),
        },
        Phase::Serving { agreed } => {
            let export = export_at(exports, agreed.place);
            take_request(state, queue, export, agreed, reader, writer)
        }
        Phase::Over => unreachable!(),
    }
}

// The fault of the request of a message that led to that phase, if it was one and had a fault.
fn turn_fault(phase: Phase, next: Option<Phase>, log: &SessionLog) -> Option<ExportFault>
    ensures { result ≡ turn_fault phase next log.now }
{
    match next {
        Some(next) => served_fault(phase, next, log),
        None => None,
    }
}

// Receives one message and writes the reply. After the reply is flushed, the lines on the fault of the request are printed, if it had
// one.
fn take_turn<D: SyncDev, R: Read, W: Write, E: Write, J: Journal>(
    session: &mut Session<'_, J>,
    queue: &mut Queue<D>,
    exports: &[Export<'_>],
    reader: &mut Counted<R>,
    writer: &mut Counted<W>,
    errors: &mut Counted<E>,
) -> Result<Option<Phase>, ServiceFault>
    requires going { IsGoing queue.old.stack.config exports.now session.old.state.phase }
    requires flushed { writer.old.pending ≡ false }
    ensures turn { EndsTurn (export_records exports.now) session.old.state.phase queue.old queue.new session.old.state.log session.new.state.log
        (streams (R.remaining reader.old.inner) (W.contents writer.old.inner)) (streams (R.remaining reader.new.inner) (W.contents writer.new.inner)) result }
    ensures reader { HasRead 1 reader.old reader.new (result_fault result) }
    ensures writer { HasWritten writer.old writer.new (result_fault result) }
    ensures flushed { OnOk result (writer.new.pending ≡ false) }
    ensures printed { TellsTurn E.contents (J.shows session.old.journal.now) (export_records exports.now) session.old.state.phase session.new.state.log session.old.faults session.new.faults errors.old errors.new result
        × (session.new.journal ≡ session.old.journal) }
{
    let phase = session.state.phase;
    let next = take_message(&mut session.state, queue, exports, phase, reader, writer)?;
    let met = turn_fault(phase, next, &session.state.log);
    tell_met(errors, exports, &mut session.faults, session.journal, met);
    Ok(next)
}

// Greets a client and answers its messages until the session ends.
fn converse<D: SyncDev, R: Read, W: Write, E: Write, J: Journal>(
    session: &mut Session<'_, J>,
    queue: &mut Queue<D>,
    exports: &[Export<'_>],
    reader: &mut Counted<R>,
    writer: &mut Counted<W>,
    errors: &mut Counted<E>,
) -> Result<SessionEnd, ServiceFault>
    requires exports { AreExports queue.old.stack.config exports.now }
    requires log { session.old.state.log ≡ no_log }
    requires phase { session.old.state.phase ≡ Greeted }
    ensures service { IsService (export_records exports.now) queue.old queue.new
        (streams (R.remaining reader.old.inner) (W.contents writer.old.inner)) (streams (R.remaining reader.new.inner) (W.contents writer.new.inner)) session.new.state.log
        (IsReporting E.contents (J.shows session.old.journal.now) (export_records exports.now) session.old.faults session.new.faults errors.old errors.new) result }
    ensures reader { HasRead 0 reader.old reader.new (result_fault result) }
    ensures writer { HasWritten writer.old writer.new (result_fault result) }
{
    writer.put(&GREETING)?;
    writer.flush()?;
    for _turn in 0..u64::MAX {
        match session.state.phase {
            Phase::Over => return Ok(SessionEnd::Ended),
            _ => match take_turn(session, queue, exports, reader, writer, errors)? {
                Some(next) => session.state.phase = next,
                None => return Ok(SessionEnd::Gone),
            },
        }
    }
    Err(ServiceFault::ReadFault)
}

/// Serves one of the exports to a client, until the client ends the session or goes away between two messages. Returns which of the
/// two it did.
///
/// Each reply is flushed before the next call of the reader. `log` gets the tally of the requests whose replies were flushed, and the
/// fault of the last one.
///
/// # Errors
///
/// - `Lost` if the client disconnected in the middle of a message.
/// - `Magic` if a message begins with another magic number.
/// - `Flags` if the client set flags that the service doesn't offer.
/// - `NoSuchExport` if EXPORT_NAME names no export.
/// - `ReadFault` if the reader failed, or was called 2^64 - 1 times.
/// - `WriteFault` if the writer failed.
pub fn serve<D: SyncDev, R: Read, W: Write>(
    alloc: Global,
    queue: &mut Queue<D>,
    exports: &[Export<'_>],
    reader: &mut Counted<R>,
    writer: &mut Counted<W>,
    log: &mut SessionLog,
) -> Result<SessionEnd, ServiceFault>
    requires { AreExports queue.old.stack.config exports.now }
    ensures service { IsService (export_records exports.now) queue.old queue.new
        (streams (R.remaining reader.old.inner) (W.contents writer.old.inner)) (streams (R.remaining reader.new.inner) (W.contents writer.new.inner)) log.new AnyFaults result }
    ensures reader { HasRead 0 reader.old reader.new (result_fault result) }
    ensures writer { HasWritten writer.old writer.new (result_fault result) }
{
    let journal = NoJournal;
    let mut session = Session::new(alloc, &journal);
    let mut unheard = Counted::new(io::sink());
    let outcome = converse(&mut session, queue, exports, reader, writer, &mut unheard);
    mem::swap(log, &mut session.state.log);
    outcome
}

/// Serves as [`serve`] does. After the reply to a request is flushed that ends with a fault, a line is printed in `output`:
/// `dmstack: export NAME: sector S: KIND`, or `dmstack: export NAME: flush: KIND` of a sync. A fault has no line if 60 had one in the
/// same minute, or if one of the same sector or data block is remembered. Faults with a line are, up to 60; with the next line they
/// are forgotten. `dmstack: N more faulty requests` is printed of those without a line, when the next minute begins and at the end.
/// The lines begin with `<4>` if the journal takes priorities.
///
/// # Errors
///
/// Those of [`serve`]. A failure of the output stays known and ends nothing.
pub fn serve_logged<D: SyncDev, R: Read, W: Write, E: Write, J: Journal>(
    queue: &mut Queue<D>,
    exports: &[Export<'_>],
    reader: &mut Counted<R>,
    writer: &mut Counted<W>,
    output: LogOutput<'_, E, J>,
    log: &mut SessionLog,
) -> Result<SessionEnd, ServiceFault>
    requires { AreExports queue.old.stack.config exports.now }
    ensures service { IsService (export_records exports.now) queue.old queue.new
        (streams (R.remaining reader.old.inner) (W.contents writer.old.inner)) (streams (R.remaining reader.new.inner) (W.contents writer.new.inner)) log.new
        (IsReported E.contents (J.shows output.entry.journal.now) (J.priorities output.entry.journal.now) (export_records exports.now) output.entry.errors.now output.exit.0.now) result }
    ensures reader { HasRead 0 reader.old reader.new (result_fault result) }
    ensures writer { HasWritten writer.old writer.new (result_fault result) }
{
    let LogOutput { errors, journal } = output;
    let mut session = Session::new(queue.stack().config().alloc(), journal);
    let outcome = converse(&mut session, queue, exports, reader, writer, errors);
    tell_more(errors, &session.faults);
    mem::swap(log, &mut session.state.log);
    outcome
}
