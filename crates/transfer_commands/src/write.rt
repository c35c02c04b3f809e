//! Writes a file's bytes to a device by one request.
ghost use Rattle.std.specs.Prelude.{OnOk, Ok, IfOk, IfErr};
ghost use Rattle.transfer_commands.specs.Requests.{FailsServing, HasReply, write_request};
ghost use Rattle.stack_files.specs.Warnings.{notes_of};
ghost use Rattle.transfer_commands.specs.Writes.{NotesPutBy, PutsBy, UnputBy, words_to_put};

use crate::request::serve_request;
use crate::request_fault::RequestFault;
use allocation::copied;
use block_device::BlockDev;
use command_line::Transfer;
use image_files::Images;
use program_io::Counted;
use request_queue::{Queue, Reply, Request};
use stack_files::{StackFile, load_stack, note_unchecked, open_with_source, sync_and_close};
use std::alloc::Global;
use std::io::Write;

/// Writes the bytes of the source file to a device of a stack file over the bindings. The images are synced and closed, even
/// after a fault of the request; if the sync fails too, the fault of the request is returned. A warning among the errors says that
/// no signature is checked, if a line names the key of one.
///
/// # Errors
///
/// - `NoMemory` if an allocation was refused before the request began.
/// - `Stack` if there is no stack, or a file can't be opened.
/// - `Submit` if the queue refused the request.
/// - `Io` if the request or the sync ended in a fault.
pub fn write_source<'a, I: Images, E: Write>(
    alloc: Global,
    images: &mut I,
    file: StackFile<'a, '_>,
    cache: u32,
    transfer: Transfer<'a>,
    errors: &mut Counted<E>,
) -> Result<(), RequestFault<'a>>
    ensures ok { OnOk result (PutsBy I.relations I.Dev.state images.old images.new file.entry cache transfer.entry) }
    ensures err { IfErr result (UnputBy I.relations I.Dev.state images.old images.new file.entry cache transfer.entry) }
    ensures noted { NotesPutBy I.relations I.Dev.state images.old images.new (words_to_put file.entry cache transfer.entry) (notes_of E.contents errors.old errors.new) }
{
    let (over, source) = open_with_source(alloc, images, file, transfer.source)?;
    let stack = load_stack(alloc, over, cache)?;
    note_unchecked(errors, stack.config());
    let mut queue = Queue::new(alloc, stack);
    let outcome = store(alloc, &mut queue, transfer, source.bytes);
    let stack = queue.into_stack();
    let synced = sync_and_close(images, file.bindings, stack);
    match outcome {
        Ok(_reply) => Ok(synced?),
        Err(fault) => Err(fault),
    }
}

// Writes the bytes to the device, from the requested sector on.
fn store<'a, D: BlockDev + Drop>(
    alloc: Global,
    queue: &mut Queue<D>,
    transfer: Transfer<'_>,
    bytes: Vec<u8>,
) -> Result<Reply, RequestFault<'a>>
    ensures ok { IfOk result (λ reply. HasReply queue.old (write_request transfer.entry bytes.items) reply queue.new) }
    ensures err { IfErr result (FailsServing queue.old (write_request transfer.entry bytes.items) queue.new) }
{
    let device = copied(alloc, transfer.name.as_bytes())?;
    let request = Request::Write {
        device,
        first: transfer.first,
        bytes,
    };
    serve_request(queue, request)
}
