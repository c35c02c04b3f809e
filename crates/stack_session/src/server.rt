//! Serves the lines of a session by a queue over a stack.
ghost use Rattle.std.specs.Prelude.{false, ◌≡◌, ◌≤◌, length};
ghost use Rattle.stack_session.specs.Accesses.{IsSmall};
ghost use Rattle.stack_session.specs.Commands.{load, run, submit, step, remove, cost, table, moved};
ghost use Rattle.stack_session.specs.Replies.{Replies, RepliesBy, WholeStep, runs_access, submits_access};
ghost use Rattle.stack_session.specs.QueueSessions.{IsQueueSessionOf};
ghost use Rattle.stack_session.specs.Session.{IsEnding};

use crate::access::Access;
use crate::command::{Command, command_of};
use crate::fault::SessionFault;
use crate::lines::{LIMIT, LineServer, serve_lines};
use crate::reply::{
    say_busy, say_cost, say_loaded, say_more, say_moved, say_no_ticket, say_refusal,
    say_removal_fault, say_removed, say_reply, say_submit_fault, say_text_fault, say_ticket,
};
use block_device::BlockDev;
use dm_table::ParseFault;
use io_fault_text::{say_io_fault, say_no_memory, say_usage};
use program_io::{Counted, WriteFault};
use request_queue::{BusyOr, NoSuchTicket, Progress, Queue, RunFault, SubmitFault, Ticket};
use stack_loader::LoadFault;
use std::alloc::Global;
use std::io::{Read, Write};
use table_text::{parse_stack, print_table};

// Loads a text, and replies. A fault of the text is reported even if requests are in flight.
fn reply_to_load<D: BlockDev, W: Write>(
    alloc: Global,
    queue: &mut Queue<D>,
    text: &[u8],
    writer: &mut Counted<W>,
) -> Result<(), WriteFault>
    requires { length text.now ≤ LIMIT }
    ensures { RepliesBy W.contents writer.old writer.new queue.old queue.new (load text.now) result }
{
    let entries = match parse_stack(alloc, text) {
        Ok(entries) => entries,
        Err(ParseFault::Text(fault)) => return say_text_fault(writer, fault),
        Err(ParseFault::NoMemory) => return say_no_memory(writer),
    };
    match queue.load(&entries) {
        Ok(()) => say_loaded(writer, entries.entries()),
        Err(BusyOr::Busy) => say_busy(writer),
        Err(BusyOr::Fault(LoadFault::Refused(refusal))) => say_refusal(writer, refusal),
        Err(BusyOr::Fault(LoadFault::NoMemory)) => say_no_memory(writer),
    }
}

// Serves a request to its end, and replies with its result.
fn reply_to_run<D: BlockDev, W: Write>(
    alloc: Global,
    queue: &mut Queue<D>,
    access: Access<'_>,
    writer: &mut Counted<W>,
) -> Result<(), WriteFault>
    requires { IsSmall access }
    ensures { RepliesBy W.contents writer.old writer.new queue.old queue.new (runs_access access.entry) result }
{
    let Ok(request) = access.request(alloc) else {
        return say_no_memory(writer);
    };
    match queue.run(request) {
        Ok(reply) => say_reply(writer, access.first(), reply),
        Err(RunFault::Submit(fault, request)) => {
            drop(request);
            say_submit_fault(writer, fault)
        }
        Err(RunFault::Io(fault)) => say_io_fault(writer, fault),
    }
}

// Begins a request, and replies with its ticket.
fn reply_to_submit<D: BlockDev, W: Write>(
    alloc: Global,
    queue: &mut Queue<D>,
    access: Access<'_>,
    writer: &mut Counted<W>,
) -> Result<(), WriteFault>
    requires { IsSmall access }
    ensures { RepliesBy W.contents writer.old writer.new queue.old queue.new (submits_access access.entry) result }
{
    let Ok(request) = access.request(alloc) else {
        return say_no_memory(writer);
    };
    match queue.submit(request) {
        Ok(ticket) => say_ticket(writer, ticket),
        Err((fault, request)) => {
            drop(request);
            say_submit_fault(writer, fault)
        }
    }
}

// Serves a piece of the request with that ticket, and replies with the result.
fn reply_to_step<D: BlockDev, W: Write>(
    queue: &mut Queue<D>,
    ticket: u64,
    writer: &mut Counted<W>,
) -> Result<(), WriteFault>
    ensures { RepliesBy W.contents writer.old writer.new queue.old queue.new (step ticket) result }
{
    let first = queue.first_sector(Ticket(ticket)).unwrap_or(0);
    match queue.step(Ticket(ticket)) {
        Ok(Progress::More) => say_more(writer),
        Ok(Progress::Done(Ok(reply))) => say_reply(writer, first, reply),
        Ok(Progress::Done(Err(fault))) => say_io_fault(writer, fault),
        Err(NoSuchTicket) => say_no_ticket(writer),
    }
}

// Removes a device, and replies.
fn reply_to_remove<D: BlockDev, W: Write>(
    queue: &mut Queue<D>,
    name: &[u8],
    writer: &mut Counted<W>,
) -> Result<(), WriteFault>
    ensures { RepliesBy W.contents writer.old writer.new queue.old queue.new (remove name.now) result }
{
    match queue.remove(name) {
        Ok(()) => say_removed(writer),
        Err(BusyOr::Busy) => say_busy(writer),
        Err(BusyOr::Fault(fault)) => say_removal_fault(writer, fault),
    }
}

// Replies with the size, the depth and the costs of a device.
fn reply_to_cost<D: BlockDev, W: Write>(
    queue: &Queue<D>,
    name: &[u8],
    writer: &mut Counted<W>,
) -> Result<(), WriteFault>
    ensures { RepliesBy W.contents writer.old writer.new queue.now queue.now (cost name.now) result }
{
    let config = queue.stack().config();
    match config.device(name) {
        Some(d) => say_cost(writer, config, d),
        None => say_submit_fault(writer, SubmitFault::NoSuchDevice),
    }
}

// Replies with the table of a device, without its keys.
fn reply_to_table<D: BlockDev, W: Write>(
    alloc: Global,
    queue: &Queue<D>,
    name: &[u8],
    writer: &mut Counted<W>,
) -> Result<(), WriteFault>
    ensures { RepliesBy W.contents writer.old writer.new queue.now queue.now (table name.now) result }
{
    let config = queue.stack().config();
    let Some(d) = config.device(name) else {
        return say_submit_fault(writer, SubmitFault::NoSuchDevice);
    };
    match print_table(alloc, config.table(d), false) {
        Ok(text) => writer.put(text.as_slice()),
        Err(_) => say_no_memory(writer),
    }
}

// Replies with the sectors that the backing devices have read and written.
fn reply_to_moved<D: BlockDev, W: Write>(
    queue: &Queue<D>,
    writer: &mut Counted<W>,
) -> Result<(), WriteFault>
    ensures { RepliesBy W.contents writer.old writer.new queue.now queue.now moved result }
{
    let (reads, writes) = queue.stack().moved();
    say_moved(writer, reads, writes)
}

impl<D: BlockDev> LineServer for Queue<D> {
    ghost replies = { Replies WholeStep };

    fn serve_line<W: Write>(
        &mut self,
        alloc: Global,
        line: &[u8],
        writer: &mut Counted<W>,
    ) -> Result<(), WriteFault> {
        match command_of(line) {
            Command::Nothing => Ok(()),
            Command::Load(text) => reply_to_load(alloc, self, text, writer),
            Command::Run(access) => reply_to_run(alloc, self, access, writer),
            Command::Submit(access) => reply_to_submit(alloc, self, access, writer),
            Command::Step(ticket) => reply_to_step(self, ticket, writer),
            Command::Remove(name) => reply_to_remove(self, name, writer),
            Command::Cost(name) => reply_to_cost(self, name, writer),
            Command::Table(name) => reply_to_table(alloc, self, name, writer),
            Command::Moved => reply_to_moved(self, writer),
            Command::Usage => say_usage(writer),
        }
    }
}

/// Serves a session's lines by a queue. The queue is in the state that the last line left.
///
/// # Errors
///
/// - `TooLong` if the input has more than 16 MiB.
/// - `ReadFault` if the reader failed, or was called 2^24 + 1 times.
/// - `WriteFault` if the writer failed.
/// - `NoMemory` if an allocation of at most 16 MiB was refused.
pub fn session<D: BlockDev, R: Read, W: Write>(
    alloc: Global,
    queue: &mut Queue<D>,
    reader: &mut Counted<R>,
    writer: &mut Counted<W>,
) -> Result<(), SessionFault>
    requires reader { reader.old.failed ≡ false }
    requires writer { writer.old.failed ≡ false }
    ensures session { IsQueueSessionOf queue.old queue.new R.remaining W.contents reader.old writer.old reader.new writer.new result }
    ensures ending { IsEnding reader.old reader.new writer.new result }
{
    serve_lines(alloc, queue, reader, writer)
}
