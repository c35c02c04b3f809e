//! The sentences on `cat` and `store`.
ghost use Rattle.std.specs.Prelude.{◌≡◌};
ghost use Rattle.command_line.specs.FormatOptions.{text_of};
ghost use Rattle.stack_commands.specs.messages.Streams.{cat_message, store_message, stream_message};

use crate::messages::stacks::{stack_message, submit_message};
use manual_pages::io_message;
use request_queue::SubmitFault;
use transfer_commands::{CatFault, StoreCause, StreamFault};

/// Returns the sentence on a `cat` that ends early, if there is one.
#[tactic(auto, unfolding(crate::specs::messages::Streams::cat_message))]
pub fn cat_message(fault: CatFault) -> Option<&'static str>
    ensures { text_of result ≡ cat_message fault }
{
    match fault {
        CatFault::Range => submit_message(SubmitFault::OutOfRange),
        CatFault::Read(fault) => io_message(fault),
        CatFault::Write => None,
    }
}

/// Returns the sentence on a `store` that ends early, if there is one.
#[tactic(auto, unfolding(crate::specs::messages::Streams::store_message))]
pub fn store_message(cause: StoreCause) -> Option<&'static str>
    ensures { text_of result ≡ store_message cause }
{
    match cause {
        StoreCause::ReadOnly => submit_message(SubmitFault::ReadOnly),
        StoreCause::Range => submit_message(SubmitFault::OutOfRange),
        StoreCause::Length => submit_message(SubmitFault::Length),
        StoreCause::TooLong => Some(
            "the input is longer than the device; only the sectors printed as written are stored",
        ),
        StoreCause::PartSector => Some(
            "the input ends inside a sector: extend it with 'truncate -s %512'",
        ),
        StoreCause::Read => Some(
            "the input can't be read: go on after the written sectors with '--first'",
        ),
        StoreCause::Write(fault) => io_message(fault),
        StoreCause::Sync(fault) => io_message(fault),
    }
}

/// Returns the sentence on a command on the bytes of a device that ends early, if there is one.
#[tactic(auto, unfolding(crate::specs::messages::Streams::stream_message))]
pub fn stream_message(fault: StreamFault<'_>) -> Option<&'static str>
    ensures { text_of result ≡ stream_message fault.entry }
{
    match fault {
        StreamFault::Stack(fault) => stack_message(fault),
        StreamFault::Cat(fault) => cat_message(fault),
        StreamFault::Store(fault) => store_message(fault.cause),
        StreamFault::Write => None,
    }
}
