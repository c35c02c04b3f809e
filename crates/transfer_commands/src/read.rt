//! Reads sectors of a device by one request.
ghost use Rattle.std.specs.Prelude.{IfOk, IfErr};
ghost use Rattle.stack_files.specs.StacksOfTexts.{NotesFileBy};
ghost use Rattle.stack_files.specs.Warnings.{notes_of};
ghost use Rattle.transfer_commands.specs.Reads.{ReadsBy, UnreadBy};
ghost use Rattle.transfer_commands.specs.Requests.{FailsServing, HasReply, read_request};

use crate::request::serve_request;
use crate::request_fault::RequestFault;
use allocation::copied;
use block_device::BlockDev;
use command_line::Sectors;
use image_files::Images;
use program_io::Counted;
use request_queue::{Queue, Reply, Request};
use stack_files::{StackFile, note_unchecked, open_loaded};
use std::alloc::Global;
use std::io::Write;

/// Reads sectors of a device of a stack file over the bindings, with a cache of `cache` hash blocks. A warning among the errors
/// says that no signature is checked, if a line names the key of one.
///
/// # Errors
///
/// - `NoMemory` if an allocation was refused before the request began.
/// - `Stack` if there is no stack.
/// - `Submit` if the queue refused the request.
/// - `Io` if the request ended in a fault.
pub fn read_sectors<'a, I: Images, E: Write>(
    alloc: Global,
    images: &mut I,
    file: StackFile<'a, '_>,
    cache: u32,
    sectors: Sectors<'_>,
    errors: &mut Counted<E>,
) -> Result<Reply, RequestFault<'a>>
    ensures ok { IfOk result (ReadsBy I.relations I.Dev.state images.old images.new file.entry cache sectors.entry) }
    ensures err { IfErr result (UnreadBy I.relations I.Dev.state images.old images.new file.entry cache sectors.entry) }
    ensures noted { NotesFileBy I.relations I.Dev.state images.old images.new file.entry cache (notes_of E.contents errors.old errors.new) }
{
    let stack = open_loaded(alloc, images, file, cache)?;
    note_unchecked(errors, stack.config());
    let mut queue = Queue::new(alloc, stack);
    fetch(alloc, &mut queue, sectors)
}

// Reads the sectors.
fn fetch<'a, D: BlockDev + Drop>(
    alloc: Global,
    queue: &mut Queue<D>,
    sectors: Sectors<'_>,
) -> Result<Reply, RequestFault<'a>>
    ensures ok { IfOk result (λ reply. HasReply queue.old (read_request sectors.entry) reply queue.new) }
    ensures err { IfErr result (FailsServing queue.old (read_request sectors.entry) queue.new) }
{
    let Sectors { name, first, count } = sectors;
    let device = copied(alloc, name.as_bytes())?;
    let request = Request::Read {
        device,
        first,
        count,
    };
    serve_request(queue, request)
}
