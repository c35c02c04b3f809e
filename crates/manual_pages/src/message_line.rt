//! The line that explains why a command ends early.
ghost use Rattle.program_io.specs.Counted.{Writes};
ghost use Rattle.manual_pages.specs.MessageLines.{message_line};

use program_io::{Counted, WriteFault};
use std::io::Write;

/// Prints a sentence on why a command ends early, as a line.
///
/// # Errors
///
/// `WriteFault` if the writer fails.
#[tactic(auto, unfolding(crate::specs::MessageLines::message_line))]
pub fn print_message<W: Write>(errors: &mut Counted<W>, message: &str) -> Result<(), WriteFault>
    ensures { Writes W.contents errors.old errors.new (message_line message.now) result }
{
    errors.print(format_args!("dmstack: {message}\n"))
}
