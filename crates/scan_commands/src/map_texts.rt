//! What is printed when a pass over a device ends early.
ghost use Rattle.std.specs.Prelude.{◌≡◌};
ghost use Rattle.program_io.specs.Counted.{Writes};
ghost use Rattle.scan_commands.specs.MapTexts.{no_map_text, pass_text, unreplaced_text};

use crate::rescue_fault::PassFault;
use image_files::ReplaceFault;
use io_fault_text::{say_no_memory, say_refused, say_unopened};
use program_io::{Counted, WriteFault};
use rescue_map::MapFault;
use std::io::Write;

/// Prints a line for a pass that ended early.
///
/// # Errors
///
/// `WriteFault` if the writer failed.
pub fn say_pass_fault<W: Write>(
    writer: &mut Counted<W>,
    fault: PassFault<'_>,
) -> Result<(), WriteFault>
    ensures { Writes W.contents writer.old writer.new (pass_text fault.entry) result }
{
    match fault {
        PassFault::NoMemory => say_no_memory(writer),
        PassFault::Unread(file) => say_unopened(writer, file),
        PassFault::TooLong => say_refused(writer, 30, "MapTooLong"),
        PassFault::NoMap(fault) => say_no_map(writer, fault),
        PassFault::Output => writer.put(b"refused 2 Device\n"),
        PassFault::Unwritten(fault) => say_unreplaced(writer, fault),
    }
}

// Prints why a text isn't a map of the device.
fn say_no_map<W: Write>(writer: &mut Counted<W>, fault: MapFault) -> Result<(), WriteFault>
    ensures { Writes W.contents writer.old writer.new (no_map_text fault) result }
{
    match fault {
        MapFault::NoMemory => say_no_memory(writer),
        MapFault::Status => say_refused(writer, 24, "MapStatus"),
        MapFault::Block => say_refused(writer, 25, "MapBlock"),
        MapFault::PartSector => say_refused(writer, 26, "MapPartSector"),
        MapFault::Gap => say_refused(writer, 27, "MapGap"),
        MapFault::Overlap => say_refused(writer, 28, "MapOverlap"),
        MapFault::Size => say_refused(writer, 29, "MapSize"),
    }
}

// Prints why a map file isn't replaced.
fn say_unreplaced<W: Write>(writer: &mut Counted<W>, fault: ReplaceFault) -> Result<(), WriteFault>
    ensures { Writes W.contents writer.old writer.new (unreplaced_text fault) result }
{
    match fault {
        ReplaceFault::NoMemory => say_no_memory(writer),
        ReplaceFault::Write => say_refused(writer, 31, "MapWrite"),
        ReplaceFault::Sync => say_refused(writer, 32, "MapSync"),
        ReplaceFault::Rename => say_refused(writer, 33, "MapRename"),
    }
}
