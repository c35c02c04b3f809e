//! Writes the bytes of a reader to a stack file's device.
ghost use Rattle.std.specs.Prelude.{OnOk, IfErr};
ghost use Rattle.image_files.specs.Opener.{calls};
ghost use Rattle.stack_files.specs.NamedDevices.{NotesDevice};
ghost use Rattle.stack_files.specs.Warnings.{notes_of};
ghost use Rattle.transfer_commands.specs.Streaming.{BlamesReader, IsTargetEnd, StoresTarget, ends, words_to};

use crate::input::{StorePlace, store};
use crate::stream_fault::StreamFault;
use crate::texts::say_stored;
use block_device::BlockDev;
use device_adapters::Progress;
use image_files::{Images, no_use};
use program_io::Counted;
use stack_files::{
    ErrorOutput, NamedDevice, StackFile, close_stack, note_unchecked, open_device_apart,
};
use std::alloc::Global;
use std::io::{Read, Write};

/// The mapped device, the sector to write from, and how many hash blocks to cache.
#[derive(Clone, Copy, Debug, PartialEq, Eq)]
pub struct Target<'a> {
    pub name: &'a str,
    pub first: u64,
    pub cache: u32,
}

/// Writes all bytes of the reader to a device of a stack file. The images are synced and closed before anything is printed. A
/// warning among the errors says first that no signature is checked, if a line names the key of one.
///
/// # Errors
///
/// - `Stack` if there is no such device, or a file can't be opened.
/// - `Store` if not all bytes were stored and synced.
/// - `Write` if the line can't be written; all bytes were stored.
pub fn store_device<'a, I: Images, S: Read, W: Write, E: Write, P: Progress>(
    alloc: Global,
    images: &mut I,
    file: StackFile<'a, '_>,
    target: Target<'a>,
    reader: &mut Counted<S>,
    writer: &mut Counted<W>,
    output: ErrorOutput<'_, E, P>,
) -> Result<(), StreamFault<'a>>
    ensures ok { OnOk result (StoresTarget (calls I.relations I.Dev.state images.old images.new) file.entry target.entry S.remaining W.contents (ends reader.old writer.old) (ends reader.new writer.new)) }
    ensures err { IfErr result (IsTargetEnd (calls I.relations I.Dev.state images.old images.new) file.entry target.entry S.remaining W.contents (ends reader.old writer.old) (ends reader.new writer.new)) }
    ensures broken { IfErr result (BlamesReader reader.new) }
    ensures noted { NotesDevice (calls I.relations I.Dev.state images.old images.new) (words_to file.entry target.entry) (notes_of E.contents output.entry.errors.now output.exit.0.now) }
{
    let Target { name, first, cache } = target;
    let ErrorOutput { errors, progress } = output;
    let device = NamedDevice { name, cache };
    let (mut stack, device) = open_device_apart(alloc, images, no_use(), file, device)?;
    note_unchecked(errors, stack.config());
    let place = StorePlace {
        first,
        length: None,
    };
    let outcome = store(&mut stack, device, place, reader, progress);
    close_stack(images, file.bindings, stack);
    match outcome {
        Ok(written) => Ok(say_stored(writer, written)?),
        Err(fault) => Err(StreamFault::Store(fault)),
    }
}
