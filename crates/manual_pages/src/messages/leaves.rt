//! The sentences on bindings that are refused.
ghost use Rattle.std.specs.Prelude.{◌≡◌};
ghost use Rattle.command_line.specs.FormatOptions.{text_of};
ghost use Rattle.manual_pages.specs.messages.Leaves.{leaves_message};

use stack_rules::ConfigFault;

/// Returns the sentence on bindings that are refused; `None` if memory ran out.
#[tactic(auto, unfolding(crate::specs::messages::Leaves::leaves_message))]
pub fn leaves_message(fault: ConfigFault) -> Option<&'static str>
    ensures { text_of result ≡ leaves_message fault }
{
    match fault {
        ConfigFault::DuplicateLeaf => Some(
            "two bindings have the same name: give each image a name of its own",
        ),
        ConfigFault::TooMany => Some(
            "there are more than 64 bindings: a stack takes at most 64 images",
        ),
        ConfigFault::BadName => Some(
            "a binding's name is empty, begins with /dev/mapper/, or has a comma, a semicolon or white space",
        ),
        ConfigFault::TooLarge => Some(
            "a bound image has more than 2^54 sectors: bind a part of it with 'ro@FIRST+COUNT:FILE'",
        ),
        ConfigFault::NoMemory => None,
    }
}
