//! Writes the bytes of a stack file's device to a writer, and nothing else.
ghost use Rattle.std.specs.Prelude.{◌≡◌, OnOk, IfErr};
ghost use Rattle.image_files.specs.Opener.{calls};
ghost use Rattle.stack_files.specs.NamedDevices.{NotesDevice};
ghost use Rattle.stack_files.specs.Warnings.{notes_of};
ghost use Rattle.transfer_commands.specs.Streaming.{EndsPrinting, IsWantedEnd, Printing, PrintsWanted, count_from, wanted_words};

use crate::output::{SectorRange, cat};
use crate::stream_fault::StreamFault;
use block_device::BlockDev;
use device_adapters::Progress;
use image_files::{Images, no_use};
use program_io::Counted;
use stack_files::{ErrorOutput, NamedDevice, StackFile, note_unchecked, open_device_apart};
use std::alloc::Global;
use std::io::Write;

/// Sectors of a mapped device, and how many hash blocks to cache. Without a count they are all sectors from the first one on.
#[derive(Clone, Copy, Debug, PartialEq, Eq)]
pub struct Wanted<'a> {
    pub name: &'a str,
    pub first: u64,
    pub count: Option<u64>,
    pub cache: u32,
}

fn count_from(count: Option<u64>, first: u64, sectors: u64) -> u64
    ensures { result ≡ count_from count first sectors }
{
    match count {
        Some(count) => count,
        None => sectors.saturating_sub(first),
    }
}

/// Writes the bytes of the sectors to the writer. A warning among the errors says that no signature is checked, if a line names the
/// key of one.
///
/// # Errors
///
/// - `Stack` if there is no such device, or a file can't be opened.
/// - `Cat` if not all sectors were written.
pub fn cat_device<'a, I: Images, W: Write, E: Write, P: Progress>(
    alloc: Global,
    images: &mut I,
    file: StackFile<'a, '_>,
    wanted: Wanted<'a>,
    writer: &mut Counted<W>,
    output: ErrorOutput<'_, E, P>,
) -> Result<(), StreamFault<'a>>
    ensures ok { OnOk result (Printing W.contents writer.old writer.new (PrintsWanted (calls I.relations I.Dev.state images.old images.new) file.entry wanted.entry)) }
    ensures err { IfErr result (EndsPrinting W.contents writer.old writer.new (IsWantedEnd (calls I.relations I.Dev.state images.old images.new) file.entry wanted.entry)) }
    ensures noted { NotesDevice (calls I.relations I.Dev.state images.old images.new) (wanted_words file.entry wanted.entry) (notes_of E.contents output.entry.errors.now output.exit.0.now) }
{
    let Wanted {
        name,
        first,
        count,
        cache,
    } = wanted;
    let ErrorOutput { errors, progress } = output;
    let device = NamedDevice { name, cache };
    let (mut stack, device) = open_device_apart(alloc, images, no_use(), file, device)?;
    note_unchecked(errors, stack.config());
    let count = count_from(count, first, stack.config().sectors(device));
    let range = SectorRange { first, count };
    match cat(&mut stack, device, range, writer, progress) {
        Ok(()) => Ok(()),
        Err(fault) => Err(StreamFault::Cat(fault)),
    }
}
