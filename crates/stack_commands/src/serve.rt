//! The command `session`: serves the lines of a reader.
ghost use Rattle.std.specs.Prelude.{false, ◌≡◌, OnOk, IfErr};
ghost use Rattle.stack_files.specs.Warnings.{notes_of};
ghost use Rattle.stack_commands.specs.Served.{DoesSession, EndsSession, NotesOfInput};

use crate::fault::CommandFault;
use block_device::BlockDev;
use command_line::SessionWords;
use image_files::Images;
use program_io::Counted;
use request_queue::Queue;
use stack_files::{note_unchecked, open_leaves, sync_and_close};
use stack_session::session;
use std::alloc::Global;
use std::io::{Read, Write};

/// `session [--cache N] BINDING...`: a session over the bindings. The images are synced and closed at its end. A warning among the
/// errors says then that no signature is checked, if a line of a device that is left names the key of one.
///
/// # Errors
///
/// - `Stack` if a file can't be opened.
/// - `Session` if the session failed.
/// - `Io` if the images can't be synced.
pub fn invoke_session<'a, I: Images, R: Read, W: Write, E: Write>(
    alloc: Global,
    images: &mut I,
    words: SessionWords<'a>,
    reader: &mut Counted<R>,
    writer: &mut Counted<W>,
    errors: &mut Counted<E>,
) -> Result<(), CommandFault<'a>>
    requires reader { reader.old.failed ≡ false }
    requires writer { writer.old.failed ≡ false }
    ensures ok { OnOk result (DoesSession I.relations I.Dev.state R.remaining W.contents images.old images.new reader.old reader.new writer.old writer.new words.entry) }
    ensures err { IfErr result (EndsSession I.relations I.Dev.state R.remaining W.contents images.old images.new reader.old reader.new writer.old writer.new words.entry) }
    ensures noted { NotesOfInput I.relations I.Dev.state R.remaining W.contents images.old images.new reader.old reader.new writer.old writer.new words.entry (notes_of E.contents errors.old errors.new) }
{
    let SessionWords { cache, bindings } = words;
    let bindings = bindings.as_slice();
    let stack = open_leaves(alloc, images, bindings, cache)?;
    let mut queue = Queue::new(alloc, stack);
    let outcome = session(alloc, &mut queue, reader, writer);
    note_unchecked(errors, queue.stack().config());
    let synced = sync_and_close(images, bindings, queue.into_stack());
    outcome?;
    Ok(synced?)
}
