//! The sentences on commands on stacks and of requests.
ghost use Rattle.std.specs.Prelude.{◌≡◌};
ghost use Rattle.command_line.specs.FormatOptions.{text_of};
ghost use Rattle.stack_commands.specs.messages.Stacks.{submit_message, stack_message, request_message};

use manual_pages::{io_message, leaves_message, load_message, open_message, text_message};
use request_queue::SubmitFault;
use stack_files::StackFault;
use transfer_commands::RequestFault;

/// Returns the sentence on a request that isn't accepted, if there is one: there is none on a full queue.
#[tactic(auto, unfolding(crate::specs::messages::Stacks::submit_message))]
pub fn submit_message(fault: SubmitFault) -> Option<&'static str>
    ensures { text_of result ≡ submit_message fault }
{
    match fault {
        SubmitFault::NoSuchDevice => Some(
            "the stack has no mapped device with that name: 'dmstack load' prints the names",
        ),
        SubmitFault::OutOfRange => Some(
            "the sectors end past the device: count in sectors of 512 bytes; 'dmstack load' prints the sizes",
        ),
        SubmitFault::Length => Some(
            "no sectors, more than 2048 (use 'dmstack cat' or 'store'), or a part of a sector (use 'truncate -s %512')",
        ),
        SubmitFault::ReadOnly => Some(
            "the device is read-only: write 'rw' in the stack, and bind its images with 'rw:'",
        ),
        SubmitFault::Full => None,
        SubmitFault::NoMemory => None,
    }
}

/// Returns the sentence on a stack that isn't loaded, if there is one.
#[tactic(auto, unfolding(crate::specs::messages::Stacks::stack_message))]
pub fn stack_message(fault: StackFault<'_>) -> Option<&'static str>
    ensures { text_of result ≡ stack_message fault.entry }
{
    match fault {
        StackFault::NoMemory => None,
        StackFault::TooLong => Some("STACK has more than 1 MiB: check that it isn't the image"),
        StackFault::Open(file) => open_message(file.fault),
        StackFault::Outside(_) => Some(
            "the part ends past its file: FIRST and COUNT are sectors of 512 bytes",
        ),
        StackFault::Leaves(fault) => leaves_message(fault),
        StackFault::Text(fault) => Some(text_message(fault.kind)),
        StackFault::Load(refusal) => Some(load_message(refusal.kind)),
        StackFault::NoSuchDevice => submit_message(SubmitFault::NoSuchDevice),
    }
}

/// Returns the sentence on a request that isn't served, if there is one.
#[tactic(auto, unfolding(crate::specs::messages::Stacks::request_message))]
pub fn request_message(fault: RequestFault<'_>) -> Option<&'static str>
    ensures { text_of result ≡ request_message fault.entry }
{
    match fault {
        RequestFault::NoMemory => None,
        RequestFault::Stack(fault) => stack_message(fault),
        RequestFault::Submit(fault) => submit_message(fault),
        RequestFault::Io(fault) => io_message(fault),
    }
}
