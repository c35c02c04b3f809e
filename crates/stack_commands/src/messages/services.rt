//! The sentences on the service of a client.
ghost use Rattle.std.specs.Prelude.{◌≡◌, Some};
ghost use Rattle.command_line.specs.FormatOptions.{text_of};
ghost use Rattle.stack_commands.specs.messages.Services.{faults_message, service_message};

use nbd_server::{ServiceFault, Tally};

/// Returns the sentence on a service that ends early, if there is one.
#[tactic(auto, unfolding(crate::specs::messages::Services::service_message))]
pub fn service_message(fault: ServiceFault) -> Option<&'static str>
    ensures { text_of result ≡ service_message fault }
{
    match fault {
        ServiceFault::Lost => Some("the client disconnected in the middle of a message"),
        ServiceFault::Magic => Some(
            "the client isn't an NBD client: a message begins with another magic number",
        ),
        ServiceFault::Flags => Some("the client set handshake flags that aren't offered"),
        ServiceFault::NoSuchExport => Some("the client asked for an export that doesn't exist"),
        ServiceFault::TooManyOptions => Some("the client sent more than 1,024 options"),
        ServiceFault::ReadFault => None,
        ServiceFault::WriteFault => None,
    }
}

/// Returns the sentence on requests that ended with a fault.
pub fn faults_message(tally: Tally) -> Option<&'static str>
    ensures { text_of result ≡ Some (faults_message tally) }
{
    if tally.full < tally.faults {
        Some(
            "requests of the client failed: 'scan' on the same stack prints the sectors that can't be read",
        )
    } else {
        Some("requests of the client failed: an image has no space left")
    }
}
