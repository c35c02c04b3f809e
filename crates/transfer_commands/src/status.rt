//! The exit statuses of `cat` and `store`: 1 for a refusal, 3 for a fault of the stack.
ghost use Rattle.std.specs.Prelude.{◌≡◌};
ghost use Rattle.transfer_commands.specs.StreamTexts.{cat_status, store_status};

use crate::stream_fault::{CatFault, StoreCause, StoreFault};
use stack_engine::IoFault;

const REFUSED: u8 = 1;

const FAULT: u8 = 3;

/// Returns the exit status for a fault of `cat`.
pub fn cat_status(fault: CatFault) -> u8
    ensures { result ≡ cat_status fault }
{
    match fault {
        CatFault::Read(IoFault::NoMemory) => REFUSED,
        CatFault::Read(_) => FAULT,
        _ => REFUSED,
    }
}

/// Returns the exit status for a fault of `store`.
pub fn store_status(fault: StoreFault) -> u8
    ensures { result ≡ store_status fault }
{
    match fault.cause {
        StoreCause::Write(IoFault::NoMemory) | StoreCause::Sync(IoFault::NoMemory) => REFUSED,
        StoreCause::Write(_) | StoreCause::Sync(_) => FAULT,
        _ => REFUSED,
    }
}
