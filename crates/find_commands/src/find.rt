//! The command `find`.
ghost use Rattle.std.specs.Prelude.{◌≡◌, IfErr, OnOk};
ghost use Rattle.find_commands.specs.Commands.{EndsInForm, EndsFoundLines, EndsFoundObject, EndsFind, FindsByWords, PrintsInForm, PrintsFoundLines, PrintsFoundObject, list_end};

use crate::listing::{KeptFindings, ListFault};
use crate::object::found_line;
use crate::search::find_in;
use block_device::BlockDev;
use command_line::FindWords;
use image_files::{Images, open_place};
use program_io::Counted;
use scan_commands::{PassCounts, RecoveringFault, has_missing, tell_counts};
use stack_files::StackFault;
use std::alloc::Global;
use std::io::Write;

/// `find [--json] PLACE`: reads each sector of PLACE, and prints a line for each thing that a sector shows, in the order of these
/// sectors, and how many sectors were read; or one JSON object of them at the end.
///
/// # Errors
///
/// - `Stack` if PLACE can't be opened.
/// - `Lost` or `LostAsSaid` if sectors are lost; what the others show is printed.
/// - `NoMemory` if memory ran out for a finding of the object, or, after the whole search, for the object.
/// - `Write` if a line can't be written. The search ends.
pub fn invoke_find<'a, I: Images, W: Write>(
    alloc: Global,
    images: &mut I,
    words: &FindWords<'a>,
    writer: &mut Counted<W>,
) -> Result<(), RecoveringFault<'a>>
    ensures ok { OnOk result (FindsByWords I.relations I.Dev.state images.old images.new W.contents writer.old writer.new words.now) }
    ensures err { IfErr result (EndsFind I.relations I.Dev.state images.old images.new W.contents writer.old writer.new words.now) }
{
    let mut image = match open_place(alloc, images, words.place, false) {
        Ok(image) => image,
        Err(file) => return Err(RecoveringFault::Stack(StackFault::Open(file))),
    };
    find_on(alloc, &mut image.device, words.json, writer)
}

// Searches an open device, and prints what is found in one of the two forms.
fn find_on<'a, D: BlockDev, W: Write>(
    alloc: Global,
    device: &mut D,
    json: bool,
    writer: &mut Counted<W>,
) -> Result<(), RecoveringFault<'a>>
    ensures ok { OnOk result (PrintsInForm D.state device.old device.new W.contents writer.old writer.new json) }
    ensures err { IfErr result (EndsInForm D.state device.old device.new W.contents writer.old writer.new json) }
{
    if json {
        return find_object(alloc, device, writer);
    }
    find_lines(device, writer)
}

// Prints a line for each thing that is found on an open device, and the counts. A search restores no block.
fn find_lines<'a, D: BlockDev, W: Write>(
    device: &mut D,
    writer: &mut Counted<W>,
) -> Result<(), RecoveringFault<'a>>
    ensures ok { OnOk result (PrintsFoundLines D.state device.old device.new W.contents writer.old writer.new) }
    ensures err { IfErr result (EndsFoundLines D.state device.old device.new W.contents writer.old writer.new) }
{
    let sectors = match find_in(device, writer) {
        Ok(counts) => counts,
        Err(fault) => return Err(list_end(fault)),
    };
    let restored = 0;
    tell_counts(PassCounts { sectors, restored }, writer)
}

// Prints one object of what is found on an open device, with the segments of LUKS2 volumes. Their JSON areas are read after the
// search.
fn find_object<'a, D: BlockDev, W: Write>(
    alloc: Global,
    device: &mut D,
    writer: &mut Counted<W>,
) -> Result<(), RecoveringFault<'a>>
    ensures ok { OnOk result (PrintsFoundObject D.state device.old device.new W.contents writer.old writer.new) }
    ensures err { IfErr result (EndsFoundObject D.state device.old device.new W.contents writer.old writer.new) }
{
    let mut kept = KeptFindings::new(alloc);
    let counts = match find_in(device, &mut kept) {
        Ok(counts) => counts,
        Err(fault) => return Err(list_end(fault)),
    };
    let line = found_line(alloc, device, kept.findings.as_slice(), counts)?;
    writer.put(line.as_bytes())?;
    if has_missing(counts) {
        return Err(RecoveringFault::LostAsSaid);
    }
    Ok(())
}

// How the command ends if a finding isn't received.
fn list_end<'a>(fault: ListFault) -> RecoveringFault<'a>
    ensures { result ≡ list_end fault }
{
    match fault {
        ListFault::NoMemory => RecoveringFault::NoMemory,
        ListFault::Write => RecoveringFault::Write,
    }
}
