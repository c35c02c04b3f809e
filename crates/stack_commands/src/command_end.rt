//! How a command ends early.
ghost use Rattle.std.specs.Prelude.{◌≡◌};
ghost use Rattle.stack_commands.specs.CommandEnds.{words_end};

use crate::fault::CommandFault;
use command_line::WordsFault;

/// Why a command ends early, whether that is printed as an object, and whether no sentence on it is printed.
#[derive(Clone, Copy)]
pub struct CommandEnd<'a> {
    pub fault: CommandFault<'a>,
    pub json: bool,
    pub quiet: bool,
}

impl<'a> From<WordsFault<'a>> for CommandEnd<'a> {
    ghost from_gives = { λ fault given. given ≡ words_end fault };

    fn from(fault: WordsFault<'a>) -> Self {
        CommandEnd {
            fault: CommandFault::from(fault),
            json: false,
            quiet: false,
        }
    }
}
