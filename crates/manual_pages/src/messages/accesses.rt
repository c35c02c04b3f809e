//! The sentences on reads and writes that fail.
ghost use Rattle.std.specs.Prelude.{◌≡◌};
ghost use Rattle.command_line.specs.FormatOptions.{text_of};
ghost use Rattle.manual_pages.specs.messages.Accesses.{io_message};

use stack_meaning::{Fault, IoFault};

/// Returns the sentence on a read or a write that fails; `None` if memory ran out.
#[tactic(auto, unfolding(crate::specs::messages::Accesses::io_message))]
pub fn io_message(fault: IoFault) -> Option<&'static str>
    ensures { text_of result ≡ io_message fault }
{
    match fault {
        IoFault::Stack(Fault::ErrorTarget) => Some("a sector lies in a line of the target 'error'"),
        IoFault::Stack(Fault::Mismatch) => Some(
            "a block of a verity line fails verification: 'dmstack verify --all' names the corrupt blocks",
        ),
        IoFault::Device(_) => Some(
            "the image of the binding with that number can't be read, written or synced: 'dmesg' may say why",
        ),
        IoFault::NoMemory => None,
    }
}
