//! What is printed of commands on verity images that end early.
ghost use Rattle.std.specs.Prelude.{◌≡◌};
ghost use Rattle.program_io.specs.Counted.{Writes};
ghost use Rattle.verity_commands.specs.Texts.{format_text, image_text, pin_fault_text, unwritten_pin_text, verdict_text, verify_text, verity_text};

use crate::verity_fault::VerityFault;
use image_commands::ImageFault;
use image_files::ReplaceFault;
use image_pin::PinFault;
use io_fault_text::{say_no_memory, say_refused, say_unopened, say_usage};
use program_io::{Counted, WriteFault};
use std::io::Write;
use verity_format::{FormatFault, Verdict, VerifyFault};

/// Prints the line of a fault; prints nothing if a line couldn't be written.
///
/// # Errors
///
/// `WriteFault` if the writer failed.
pub fn say_verity_fault<W: Write>(
    writer: &mut Counted<W>,
    fault: VerityFault<'_>,
) -> Result<(), WriteFault>
    ensures { Writes W.contents writer.old writer.new (verity_text fault.entry) result }
{
    match fault {
        VerityFault::Usage => say_usage(writer),
        VerityFault::Image(fault) => say_image_fault(writer, fault),
    }
}

/// Prints the line of a fault; prints nothing if a line couldn't be written.
///
/// # Errors
///
/// `WriteFault` if the writer failed.
pub fn say_image_fault<W: Write>(
    writer: &mut Counted<W>,
    fault: ImageFault<'_>,
) -> Result<(), WriteFault>
    ensures { Writes W.contents writer.old writer.new (image_text fault.entry) result }
{
    match fault {
        ImageFault::NoMemory => say_no_memory(writer),
        ImageFault::Open(file) => say_unopened(writer, file),
        ImageFault::Format(fault) => say_format_fault(writer, fault),
        ImageFault::Verify(fault) => say_verify_fault(writer, fault),
        ImageFault::Differs(verdict) => say_verdict(writer, verdict),
        ImageFault::Unaligned => writer.put(b"refused 18 Unaligned\n"),
        ImageFault::DataOverlapsTree => writer.put(b"refused 34 DataOverlapsTree\n"),
        ImageFault::Pin(fault) => say_pin_fault(writer, fault),
        ImageFault::Unpinned(mismatch) => {
            say_refused(writer, mismatch.number(), mismatch.name())
        }
        ImageFault::PinUnwritten(fault) => say_unwritten_pin(writer, fault),
        ImageFault::RootText => writer.put(b"refused 19 RootText\n"),
        ImageFault::Random => writer.put(b"refused random\n"),
        ImageFault::Write => Ok(()),
    }
}

// `refused K NAME`, and which name of a pin's line.
fn say_pin_fault<W: Write>(writer: &mut Counted<W>, fault: PinFault) -> Result<(), WriteFault>
    ensures { Writes W.contents writer.old writer.new (pin_fault_text fault) result }
{
    let (number, name) = (fault.number(), fault.name());
    match fault {
        PinFault::Repeated(line) | PinFault::Missing(line) | PinFault::Value(line) => {
            let line = line.text();
            writer.print(format_args!("refused {number} {name} {line}\n"))
        }
        PinFault::Header | PinFault::Line | PinFault::Unknown | PinFault::TooLong => {
            say_refused(writer, number, name)
        }
    }
}

// Why a pin isn't written.
fn say_unwritten_pin<W: Write>(
    writer: &mut Counted<W>,
    fault: ReplaceFault,
) -> Result<(), WriteFault>
    ensures { Writes W.contents writer.old writer.new (unwritten_pin_text fault) result }
{
    match fault {
        ReplaceFault::NoMemory => say_no_memory(writer),
        ReplaceFault::Write => say_refused(writer, 43, "PinWrite"),
        ReplaceFault::Sync => say_refused(writer, 44, "PinSync"),
        ReplaceFault::Rename => say_refused(writer, 45, "PinRename"),
    }
}

// `refused K NAME`, and what a hash image needs.
fn say_format_fault<W: Write>(writer: &mut Counted<W>, fault: FormatFault) -> Result<(), WriteFault>
    ensures { Writes W.contents writer.old writer.new (format_text fault) result }
{
    let (number, name) = (fault.number(), fault.name());
    match fault {
        FormatFault::HashTooSmall { needed } => {
            writer.print(format_args!("refused {number} {name} needed {needed}\n"))
        }
        FormatFault::NoMemory => say_no_memory(writer),
        FormatFault::Shape
        | FormatFault::DataTooSmall
        | FormatFault::HashReadOnly
        | FormatFault::Device => say_refused(writer, number, name),
    }
}

// `refused K NAME`
fn say_verify_fault<W: Write>(writer: &mut Counted<W>, fault: VerifyFault) -> Result<(), WriteFault>
    ensures { Writes W.contents writer.old writer.new (verify_text fault) result }
{
    if fault == VerifyFault::NoMemory {
        return say_no_memory(writer);
    }
    say_refused(writer, fault.number(), fault.name())
}

// `matches`, `root differs`, or `area differs at block N`
fn say_verdict<W: Write>(writer: &mut Counted<W>, verdict: Verdict) -> Result<(), WriteFault>
    ensures { Writes W.contents writer.old writer.new (verdict_text verdict) result }
{
    match verdict {
        Verdict::Matches => writer.put(b"matches\n"),
        Verdict::RootDiffers => writer.put(b"root differs\n"),
        Verdict::AreaDiffers(block) => {
            writer.print(format_args!("area differs at block {block}\n"))
        }
    }
}
