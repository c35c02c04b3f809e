//! The sentences on `scan` and `copy`.
ghost use Rattle.std.specs.Prelude.{◌≡◌};
ghost use Rattle.command_line.specs.FormatOptions.{text_of};
ghost use Rattle.stack_commands.specs.messages.Scans.{pass_message, recovering_message};

use crate::messages::stacks::stack_message;
use manual_pages::{map_message, open_message, unwritten_map_message};
use scan_commands::{PassFault, RecoveringFault};

/// Returns the sentence on a pass over a device that ends early, if there is one.
#[tactic(auto, unfolding(crate::specs::messages::Scans::pass_message))]
pub fn pass_message(fault: PassFault<'_>) -> Option<&'static str>
    ensures { text_of result ≡ pass_message fault.entry }
{
    match fault {
        PassFault::NoMemory => None,
        PassFault::Unread(file) => open_message(file.fault),
        PassFault::TooLong => Some(
            "the map has more than 16 MiB; nothing was read: check the path of the map",
        ),
        PassFault::NoMap(fault) => map_message(fault),
        PassFault::Output => Some(
            "OUT can't be written or synced: check the space on its disk, and run the same command again",
        ),
        PassFault::Unwritten(fault) => unwritten_map_message(fault),
    }
}

/// Returns the sentence on a scan or a copy that ends early, if there is one: there is none on lost sectors.
#[tactic(auto, unfolding(crate::specs::messages::Scans::recovering_message))]
pub fn recovering_message(fault: RecoveringFault<'_>) -> Option<&'static str>
    ensures { text_of result ≡ recovering_message fault.entry }
{
    match fault {
        RecoveringFault::NoMemory => None,
        RecoveringFault::Stack(fault) => stack_message(fault),
        RecoveringFault::OutputTooSmall { .. } => Some(
            "OUT has fewer sectors than needed; nothing was written: extend it with 'truncate', and if it was cut, begin a new map",
        ),
        RecoveringFault::Pass(fault) => pass_message(fault),
        RecoveringFault::Lost(_) => None,
        RecoveringFault::LostAsSaid => None,
        RecoveringFault::Write => None,
    }
}
