//! The line of `nbd` at the end of a session, printed among the errors. A failure of the errors' writer stays known and ends nothing.
ghost use Rattle.std.specs.Prelude.{◌≡◌, ◌-◌};
ghost use Rattle.nbd_server.specs.FaultLines.{IsPrinted};
ghost use Rattle.program_io.specs.Counted.{Writes};
ghost use Rattle.stack_commands.specs.ServiceLog.{end_reason, end_text, ending_text, reason_text, restored_text, served_line, tally_text};

use block_device::BlockDev;
use nbd_server::{ServiceFault, SessionEnd, Tally};
use program_io::{Counted, WriteFault};
use request_queue::Queue;
use std::io::Write;

/// Prints how many requests were answered, of how many bytes, how many of them with an input/output error, how many because a device
/// has no space left, how often blocks were restored, if any was, and why the session ended.
pub(crate) fn note_end<E: Write>(
    errors: &mut Counted<E>,
    tally: Tally,
    restored: u64,
    outcome: &Result<SessionEnd, ServiceFault>,
)
    ensures { IsPrinted E.contents errors.old errors.new (end_text tally restored outcome.now) }
{
    let _said = say_served(errors, tally, restored, end_reason(outcome));
}

/// Returns how often the stack has restored a block since it had done so that many times.
pub(crate) fn restored_since<D: BlockDev>(queue: &Queue<D>, before: u64) -> u64
    ensures { result ≡ queue.now.stack.restored - before }
{
    queue.stack().restored().saturating_sub(before)
}

// Why a session ended.
fn end_reason(outcome: &Result<SessionEnd, ServiceFault>) -> &'static str
    ensures { result.now ≡ end_reason outcome.now }
{
    match outcome {
        Ok(SessionEnd::Ended) => "the client ended the session",
        Ok(SessionEnd::Gone) => "the client disconnected",
        Err(ServiceFault::Lost) => "the client disconnected in a message",
        Err(ServiceFault::Magic) => "the client broke the protocol",
        Err(ServiceFault::Flags) => "the client broke the protocol",
        Err(ServiceFault::NoSuchExport) => "there is no such export",
        Err(ServiceFault::TooManyOptions) => "the client sent too many options",
        Err(ServiceFault::ReadFault) => "the input failed",
        Err(ServiceFault::WriteFault) => "the output failed",
    }
}

// `dmstack: served R requests of B bytes, F with an input/output error, N with NoSpace`
#[tactic(auto, unfolding(crate::specs::ServiceLog::tally_text))]
fn say_tally<W: Write>(writer: &mut Counted<W>, tally: Tally) -> Result<(), WriteFault>
    ensures { Writes W.contents writer.old writer.new (tally_text tally) result }
{
    let Tally {
        requests,
        bytes,
        faults,
        full,
    } = tally;
    let failed = faults.saturating_sub(full);
    writer.print(format_args!(
        "dmstack: served {requests} requests of {bytes} bytes, {failed} with an input/output error, {full} with NoSpace"
    ))
}

// `, restored blocks K times`, if some were: a block that is read again can be restored again
#[tactic(auto, unfolding(crate::specs::ServiceLog::restored_text))]
fn say_restored<W: Write>(writer: &mut Counted<W>, count: u64) -> Result<(), WriteFault>
    ensures { Writes W.contents writer.old writer.new (restored_text count) result }
{
    if count == 0 {
        return writer.put(b"");
    }
    writer.print(format_args!(", restored blocks {count} times"))
}

// `; REASON`
#[tactic(auto, unfolding(crate::specs::ServiceLog::reason_text))]
fn say_reason<W: Write>(writer: &mut Counted<W>, reason: &str) -> Result<(), WriteFault>
    ensures { Writes W.contents writer.old writer.new (reason_text reason.now) result }
{
    writer.print(format_args!("; {reason}\n"))
}

fn say_ending<W: Write>(
    writer: &mut Counted<W>,
    restored: u64,
    reason: &str,
) -> Result<(), WriteFault>
    ensures { Writes W.contents writer.old writer.new (ending_text restored reason.now) result }
{
    say_restored(writer, restored)?;
    say_reason(writer, reason)
}

fn say_served<W: Write>(
    writer: &mut Counted<W>,
    tally: Tally,
    restored: u64,
    reason: &str,
) -> Result<(), WriteFault>
    ensures { Writes W.contents writer.old writer.new (served_line tally restored reason.now) result }
{
    say_tally(writer, tally)?;
    say_ending(writer, restored, reason)
}
