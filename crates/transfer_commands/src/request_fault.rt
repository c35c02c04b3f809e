//! Why a request isn't served.
ghost use Rattle.std.specs.Prelude.{◌≡◌};
ghost use Rattle.stack_files.specs.Endings.{opening_ending};
ghost use Rattle.transfer_commands.specs.declared.request_fault.RequestFault.TheVariants as request_fault;

use allocation::OutOfMemory;
use request_queue::SubmitFault;
use stack_engine::IoFault;
use stack_files::{OpeningFault, StackFault};

/// Why a request to a stack isn't served.
#[derive(Clone, Copy, Debug, PartialEq, Eq)]
pub enum RequestFault<'a> {
    /// An allocation was refused before the request began.
    NoMemory,
    /// There is no stack.
    Stack(StackFault<'a>),
    /// The queue refused the request.
    Submit(SubmitFault),
    /// The request ended in a fault.
    Io(IoFault),
}

impl From<OutOfMemory> for RequestFault<'_> {
    ghost from_gives = { λ _ fault. fault ≡ request_fault.NoMemory };

    fn from(_error: OutOfMemory) -> Self {
        RequestFault::NoMemory
    }
}

impl<'a> From<OpeningFault<'a>> for RequestFault<'a> {
    ghost from_gives = { λ fault given. given ≡ request_fault.Stack (opening_ending fault) };

    fn from(fault: OpeningFault<'a>) -> Self {
        RequestFault::Stack(StackFault::from(fault))
    }
}

impl<'a> From<StackFault<'a>> for RequestFault<'a> {
    ghost from_gives = { λ fault given. given ≡ request_fault.Stack fault };

    fn from(fault: StackFault<'a>) -> Self {
        RequestFault::Stack(fault)
    }
}

impl From<IoFault> for RequestFault<'_> {
    ghost from_gives = { λ fault given. given ≡ request_fault.Io fault };

    fn from(fault: IoFault) -> Self {
        RequestFault::Io(fault)
    }
}
