//! Printing which file can't be opened, and why.
ghost use Rattle.program_io.specs.Counted.{Writes};
ghost use Rattle.io_fault_text.specs.Opening.{open_text};

use crate::path::say_path;
use crate::say::say_no_memory;
use block_device::OpenFault;
use image_files::UnopenedFile;
use program_io::{Counted, WriteFault};
use std::io::Write;

/// Writes `refused K NAME PATH`, or `no memory`.
///
/// # Errors
///
/// `WriteFault` if the writer failed.
pub fn say_unopened<W: Write>(
    writer: &mut Counted<W>,
    file: UnopenedFile<'_>,
) -> Result<(), WriteFault>
    ensures { Writes W.contents writer.old writer.new (open_text file.entry) result }
{
    let UnopenedFile { fault, path } = file;
    if fault == OpenFault::NoMemory {
        return say_no_memory(writer);
    }
    let number = fault.number();
    let name = fault.name();
    writer.print(format_args!("refused {number} {name} "))?;
    say_path(writer, path)?;
    writer.put(b"\n")
}
