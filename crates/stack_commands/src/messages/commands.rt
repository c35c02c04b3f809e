//! The sentences on commands that end early.
ghost use Rattle.std.specs.Prelude.{◌≡◌};
ghost use Rattle.command_line.specs.FormatOptions.{text_of};
ghost use Rattle.stack_commands.specs.messages.Commands.{ending_message};

use crate::fault::CommandFault;
use crate::messages::images::{fec_message, verity_message};
use crate::messages::partitions::partitions_message;
use crate::messages::scans::recovering_message;
use crate::messages::services::{faults_message, service_message};
use crate::messages::stacks::{request_message, stack_message};
use crate::messages::streams::stream_message;
use crate::messages::trees::tree_message;
use manual_pages::{io_message, linux_message};

/// Returns the sentence on a command that ends early, if there is one.
#[tactic(auto, unfolding(crate::specs::messages::Commands::ending_message))]
pub fn ending_message(fault: CommandFault<'_>) -> Option<&'static str>
    ensures { text_of result ≡ ending_message fault.entry }
{
    match fault {
        CommandFault::Usage(_) => None,
        CommandFault::NoMemory => None,
        CommandFault::Stack(fault) => stack_message(fault),
        CommandFault::Linux(refusal) => Some(linux_message(refusal.kind)),
        CommandFault::Request(fault) => request_message(fault),
        CommandFault::Io(fault) => io_message(fault),
        CommandFault::Recovering(fault) => recovering_message(fault),
        CommandFault::Stream(fault) => stream_message(fault),
        CommandFault::Verity(fault) => verity_message(fault),
        CommandFault::Fec(fault) => fec_message(fault),
        CommandFault::Partitions(fault) => partitions_message(fault),
        CommandFault::Trees(fault) => tree_message(fault),
        CommandFault::Session(_) => None,
        CommandFault::Service(fault) => service_message(fault),
        CommandFault::Faults(tally) => faults_message(tally),
    }
}
