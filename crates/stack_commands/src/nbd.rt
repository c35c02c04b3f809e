//! The command `nbd`: serves a device, or each device, of a stack to a client of the NBD protocol.
ghost use Rattle.std.specs.Prelude.{OnOk, IfErr};
ghost use Rattle.nbd_protocol.specs.Exports.{AreExports, export_records};
ghost use Rattle.nbd_protocol.specs.Streaming.{HasWritten, result_fault};
ghost use Rattle.stack_commands.specs.Served.{DoesExports, DoesNbd, EndsAll, EndsClient, EndsExports, EndsNbd, ServesDevice, ServesEach, exchanged};
ghost use Rattle.stack_commands.specs.ServiceLog.{ServesNoted, journal_record};

use crate::client::Client;
use crate::export_log::{note_start, note_unsigned};
use crate::fault::CommandFault;
use crate::service_log::{note_end, restored_since};
use block_device::{BlockDev, SyncDev};
use command_line::{Binding, ExportsWords, NbdWords, ServedDevice};
use image_files::Images;
use nbd_protocol::{Export, exports_of, names_of};
use nbd_server::{Journal, LogOutput, ServiceFault, SessionEnd, SessionLog, serve, serve_logged};
use request_queue::Queue;
use stack_files::{StackFault, StackFile, open_loaded, sync_and_close};
use std::alloc::Global;
use std::io::{Read, Write};

/// `nbd [--cache N] STACK NAME BINDING...`: serves a device of a stack file over the bindings, and syncs and closes the
/// images at the end.
///
/// # Errors
///
/// - `Stack` if a file can't be opened, or there is no stack or no such device.
/// - `Service` if the service ended early.
/// - `Io` if the images can't be synced.
/// - `Faults` if a request ended with a fault.
pub fn invoke_nbd<'a, I: Images, R: Read, W: Write, E: Write, J: Journal>(
    alloc: Global,
    images: &mut I,
    words: NbdWords<'a>,
    client: Client<'_, R, W, E, J>,
) -> Result<(), CommandFault<'a>>
    ensures ok { OnOk result (DoesNbd I.relations I.Dev.state R.remaining W.contents E.contents (journal_record J.priorities J.shows) images.old images.new client.entry client.exit words.entry) }
    ensures err { IfErr result (EndsNbd I.relations I.Dev.state R.remaining W.contents E.contents (journal_record J.priorities J.shows) images.old images.new client.entry client.exit words.entry) }
{
    let NbdWords { device, bindings } = words;
    serve_client(alloc, images, device, bindings.as_slice(), client)
}

/// `nbd --all [--cache N] STACK BINDING...`: serves each device of a stack file over the bindings, under its name. The
/// images are synced and closed at the end.
///
/// # Errors
///
/// - `Stack` if a file can't be opened, or there is no stack.
/// - `Service` if the service ended early.
/// - `Io` if the images can't be synced.
/// - `Faults` if a request ended with a fault.
pub fn invoke_exports<'a, I: Images, R: Read, W: Write, E: Write, J: Journal>(
    alloc: Global,
    images: &mut I,
    words: ExportsWords<'a>,
    client: Client<'_, R, W, E, J>,
) -> Result<(), CommandFault<'a>>
    ensures ok { OnOk result (DoesExports I.relations I.Dev.state R.remaining W.contents E.contents (journal_record J.priorities J.shows) images.old images.new client.entry client.exit words.entry) }
    ensures err { IfErr result (EndsExports I.relations I.Dev.state R.remaining W.contents E.contents (journal_record J.priorities J.shows) images.old images.new client.entry client.exit words.entry) }
{
    let ExportsWords {
        cache,
        stack,
        bindings,
    } = words;
    serve_exports(alloc, images, cache, stack, bindings.as_slice(), client)
}

// Serves a device of a stack file. The images are synced and closed at the end.
fn serve_client<'a, I: Images, R: Read, W: Write, E: Write, J: Journal>(
    alloc: Global,
    images: &mut I,
    device: ServedDevice<'a>,
    bindings: &[Binding<'a>],
    client: Client<'_, R, W, E, J>,
) -> Result<(), CommandFault<'a>>
    ensures ok { OnOk result (ServesDevice I.relations I.Dev.state R.remaining W.contents E.contents (journal_record J.priorities J.shows) images.old images.new client.entry client.exit device.entry bindings.now) }
    ensures err { IfErr result (EndsClient I.relations I.Dev.state R.remaining W.contents E.contents (journal_record J.priorities J.shows) images.old images.new client.entry client.exit device.entry bindings.now) }
{
    let file = StackFile {
        path: device.stack,
        bindings,
    };
    let mut stack = open_loaded(alloc, images, file, device.cache)?;
    stack.keep_data();
    let mut queue = Queue::new(alloc, stack);
    let Some(export) = Export::of(queue.stack().config(), device.name.as_bytes()) else {
        return Err(CommandFault::Stack(StackFault::NoSuchDevice));
    };
    let mut log = SessionLog::none();
    let outcome = serve_noted(alloc, &mut queue, &[export], client, &mut log);
    let synced = sync_and_close(images, bindings, queue.into_stack());
    outcome?;
    synced?;
    let tally = log.tally;
    if tally.faults == 0 {
        return Ok(());
    }
    Err(CommandFault::Faults(tally))
}

// Each device of a stack file, under its name.
fn serve_exports<'a, I: Images, R: Read, W: Write, E: Write, J: Journal>(
    alloc: Global,
    images: &mut I,
    cache: u32,
    stack: &'a str,
    bindings: &[Binding<'a>],
    client: Client<'_, R, W, E, J>,
) -> Result<(), CommandFault<'a>>
    ensures ok { OnOk result (ServesEach I.relations I.Dev.state R.remaining W.contents E.contents (journal_record J.priorities J.shows) images.old images.new client.entry client.exit cache stack.now bindings.now) }
    ensures err { IfErr result (EndsAll I.relations I.Dev.state R.remaining W.contents E.contents (journal_record J.priorities J.shows) images.old images.new client.entry client.exit cache stack.now bindings.now) }
{
    let file = StackFile {
        path: stack,
        bindings,
    };
    let mut stack = open_loaded(alloc, images, file, cache)?;
    stack.keep_data();
    let mut queue = Queue::new(alloc, stack);
    let config = queue.stack().config();
    let names = names_of(alloc, config)?;
    let listed = names.as_slice();
    let exports = exports_of(alloc, config, listed)?;
    let offered = exports.as_slice();
    let mut log = SessionLog::none();
    let outcome = serve_noted(alloc, &mut queue, offered, client, &mut log);
    let synced = sync_and_close(images, bindings, queue.into_stack());
    outcome?;
    synced?;
    let tally = log.tally;
    if tally.faults == 0 {
        return Ok(());
    }
    Err(CommandFault::Faults(tally))
}

// Serves the exports. Among the errors a line for each of them is printed before, those of a fault after the reply to its request is
// flushed, and that on the tally after. If `quiet` is set, none of these is, but the warning on signatures.
fn serve_noted<D: SyncDev, R: Read, W: Write, E: Write, J: Journal>(
    alloc: Global,
    queue: &mut Queue<D>,
    exports: &[Export<'_>],
    client: Client<'_, R, W, E, J>,
    log: &mut SessionLog,
) -> Result<SessionEnd, ServiceFault>
    requires { AreExports queue.old.stack.config exports.now }
    ensures served { ServesNoted (exchanged R.remaining W.contents E.contents (journal_record J.priorities J.shows) client.entry client.exit) (export_records exports.now) queue.old queue.new log.new result }
    ensures writer { HasWritten client.entry.writer.now client.exit.1.0.now (result_fault result) }
{
    let Client {
        reader,
        writer,
        errors,
        quiet,
        journal,
    } = client;
    if quiet {
        note_unsigned(errors, queue.stack().config());
        return serve(alloc, queue, exports, reader, writer, log);
    }
    note_start(errors, queue.stack().config(), exports);
    let before = restored_since(queue, 0);
    let output = LogOutput {
        errors: &mut *errors,
        journal,
    };
    let outcome = serve_logged(queue, exports, reader, writer, output, log);
    let restored = restored_since(queue, before);
    note_end(errors, log.tally, restored, &outcome);
    outcome
}
