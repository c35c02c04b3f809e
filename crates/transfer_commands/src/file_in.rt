//! Writes the sectors of a file to a stack file's device.
ghost use Rattle.std.specs.Prelude.{◌≡◌, ◌<◌, false, length, IsOk, OnOk, IfOk, IfErr};
ghost use Rattle.image_files.specs.Opener.{calls};
ghost use Rattle.transfer_commands.specs.Images.{StoresImage};
ghost use Rattle.stack_files.specs.Warnings.{notes_of};
ghost use Rattle.transfer_commands.specs.StoredFiles.{EndsWhole, IsFileEnd, NotesTarget, PrintsFileStored, words_to_store};
ghost use Rattle.transfer_commands.specs.Streaming.{EndsPrinting, Printing};

use crate::device_in::Target;
use crate::image::store_image;
use crate::stream_fault::{StoreCause, StoreFault, StreamFault};
use crate::texts::say_stored;
use block_device::{BlockDev, SyncDev};
use device_adapters::Progress;
use image_files::{Images, OpenImage, UnopenedFile};
use program_io::Counted;
use stack_config::DevId;
use stack_engine::Stack;
use stack_files::{
    ErrorOutput, NamedDevice, StackFault, StackFile, close_stack, find_device, note_unchecked,
    open_with_input,
};
use std::alloc::Global;
use std::io::Write;

/// Writes all sectors of a file to a device of a stack file. The images are synced and closed before anything is printed. A
/// file that doesn't fit is refused before anything is written. A warning among the errors says that no signature is checked, if a
/// line names the key of one.
///
/// # Errors
///
/// - `Stack` if there is no such device, or a file can't be opened.
/// - `Store` if not all sectors were stored and synced.
/// - `Write` if the line can't be written; all sectors were stored.
pub fn store_file<'a, I: Images, W: Write, E: Write, P: Progress>(
    alloc: Global,
    images: &mut I,
    file: StackFile<'a, '_>,
    target: Target<'a>,
    source: &'a str,
    writer: &mut Counted<W>,
    output: ErrorOutput<'_, E, P>,
) -> Result<(), StreamFault<'a>>
    ensures ok { OnOk result (Printing W.contents writer.old writer.new (PrintsFileStored (calls I.relations I.Dev.state images.old images.new) (words_to_store file.entry target.entry source.now))) }
    ensures err { IfErr result (EndsPrinting W.contents writer.old writer.new (IsFileEnd (calls I.relations I.Dev.state images.old images.new) (words_to_store file.entry target.entry source.now))) }
    ensures noted { NotesTarget (calls I.relations I.Dev.state images.old images.new) (words_to_store file.entry target.entry source.now) (notes_of E.contents output.entry.errors.now output.exit.0.now) }
{
    let Target { name, first, cache } = target;
    let ErrorOutput { errors, progress } = output;
    let (over, image) = open_with_input(alloc, images, file, source)?;
    let part = match images.has_part_sector(source) {
        Ok(part) => part,
        Err(fault) => {
            let path = source;
            return Err(StreamFault::Stack(StackFault::Open(UnopenedFile { fault, path })));
        }
    };
    let OpenImage {
        device: mut image,
        id: _,
    } = image;
    let device = NamedDevice { name, cache };
    let (mut stack, device) = find_device(alloc, over, device)?;
    note_unchecked(errors, stack.config());
    let outcome = store_whole(&mut stack, device, first, &mut image, part, progress);
    close_stack(images, file.bindings, stack);
    match outcome {
        Ok(written) => Ok(say_stored(writer, written)?),
        Err(fault) => Err(StreamFault::Store(fault)),
    }
}

// Writes all sectors of an image to the device. An image that ends inside a sector is refused.
fn store_whole<D: SyncDev + Drop, S: BlockDev, P: Progress>(
    stack: &mut Stack<D>,
    device: DevId,
    first: u64,
    source: &mut S,
    part: bool,
    progress: &mut P,
) -> Result<u64, StoreFault>
    requires { device.0 < length stack.old.config.devices }
    ensures ok { IfOk result (StoresImage device.0 first stack.old (S.state source.old) stack.new) }
    ensures whole { IsOk result → part ≡ false }
    ensures err { IfErr result (EndsWhole S.state part device.0 first stack.old source.old stack.new source.new) }
{
    if part {
        return Err(StoreFault {
            written: 0,
            cause: StoreCause::Length,
        });
    }
    store_image(stack, device, first, source, progress)
}
