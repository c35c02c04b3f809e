//! The commands by their names.
ghost use Rattle.std.specs.Prelude.{◌≡◌, find, map, option_copied, option_map};
ghost use Rattle.std.specs.Str.{bytes_eq};
ghost use Rattle.manual_pages.specs.Commands.{command_in, command_of, command_record};

use crate::commands::COMMANDS;

/// A command: its name, and how it is called.
#[derive(Clone, Copy)]
pub struct Command {
    pub name: &'static str,
    pub usage: &'static str,
}

/// The command of that name.
pub fn command_named(name: &[u8]) -> Option<&'static Command>
    ensures { option_map command_record (option_copied result) ≡ command_of name.now }
{
    command_in(&COMMANDS, name)
}

// The command of that name among these.
fn command_in<'a>(commands: &'a [Command], name: &[u8]) -> Option<&'a Command>
    ensures { option_map command_record (option_copied result) ≡ command_in (map command_record commands.now) name.now }
{
    find_command(commands, name)
}

fn find_command<'a>(commands: &'a [Command], name: &[u8]) -> Option<&'a Command>
    ensures { option_copied result ≡ find (λ command. bytes_eq command.name.now name.now) commands.now }
{
    commands
        .iter()
        .find(|command| command.name.as_bytes() == name)
}
