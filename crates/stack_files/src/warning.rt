//! Warnings, printed among the errors.
ghost use Rattle.program_io.specs.Counted.{Writes};
ghost use Rattle.stack_files.specs.Warnings.{warning_if, warning_line};

use program_io::{Counted, WriteFault};
use std::io::Write;

/// Prints a warning if `is` is set, and otherwise nothing.
///
/// # Errors
///
/// `WriteFault` if the writer failed.
#[tactic(auto, unfolding(crate::specs::Warnings::warning_if))]
pub fn say_if<W: Write>(writer: &mut Counted<W>, is: bool, text: &[u8]) -> Result<(), WriteFault>
    ensures { Writes W.contents writer.old writer.new (warning_if is text.now) result }
{
    if is {
        say_warning(writer, text)
    } else {
        writer.put(b"")
    }
}

/// Prints a warning.
///
/// # Errors
///
/// `WriteFault` if the writer failed.
#[tactic(auto, unfolding(crate::specs::Warnings::warning_line))]
pub fn say_warning<W: Write>(writer: &mut Counted<W>, text: &[u8]) -> Result<(), WriteFault>
    ensures { Writes W.contents writer.old writer.new (warning_line text.now) result }
{
    writer.put(b"dmstack: warning: ")?;
    writer.put(text)?;
    writer.put(b"\n")
}
