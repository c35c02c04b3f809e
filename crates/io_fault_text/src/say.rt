//! Printing faults and refusals.
ghost use Rattle.program_io.specs.Counted.{Writes};
ghost use Rattle.io_fault_text.specs.Texts.{io_text, io_words, no_memory, refused_text, usage_text};

use program_io::{Counted, WriteFault};
use stack_meaning::IoFault;
use std::io::Write;

/// Writes `no memory`.
///
/// # Errors
///
/// `WriteFault` if the writer failed.
pub fn say_no_memory<W: Write>(writer: &mut Counted<W>) -> Result<(), WriteFault>
    ensures { Writes W.contents writer.old writer.new no_memory result }
{
    writer.put(b"no memory\n")
}

/// Writes `usage`.
///
/// # Errors
///
/// `WriteFault` if the writer failed.
pub fn say_usage<W: Write>(writer: &mut Counted<W>) -> Result<(), WriteFault>
    ensures { Writes W.contents writer.old writer.new usage_text result }
{
    writer.put(b"usage\n")
}

/// Writes `refused K NAME`.
///
/// # Errors
///
/// `WriteFault` if the writer failed.
pub fn say_refused<W: Write>(
    writer: &mut Counted<W>,
    number: u8,
    name: &str,
) -> Result<(), WriteFault>
    ensures { Writes W.contents writer.old writer.new (refused_text number name.now) result }
{
    writer.print(format_args!("refused {number} {name}\n"))
}

/// Writes `fault K NAME` and, for a device, the number of the leaf; or `no memory`.
///
/// # Errors
///
/// `WriteFault` if the writer failed.
pub fn say_io_fault<W: Write>(writer: &mut Counted<W>, fault: IoFault) -> Result<(), WriteFault>
    ensures { Writes W.contents writer.old writer.new (io_text fault) result }
{
    match fault {
        IoFault::NoMemory => say_no_memory(writer),
        IoFault::Stack(_) | IoFault::Device(_) => {
            writer.put(b"fault ")?;
            say_io_words(writer, fault)
        }
    }
}

/// Writes `K NAME` and, for a device, the number of the leaf.
///
/// # Errors
///
/// `WriteFault` if the writer failed.
pub fn say_io_words<W: Write>(writer: &mut Counted<W>, fault: IoFault) -> Result<(), WriteFault>
    ensures { Writes W.contents writer.old writer.new (io_words fault) result }
{
    let (number, name) = (fault.number(), fault.name());
    match fault {
        IoFault::Device(leaf) => writer.print(format_args!("{number} {name} {leaf}\n")),
        IoFault::Stack(_) | IoFault::NoMemory => { writer.print(format_args!("{number} {name}\n")) }
    }
}
