//! The lines of `cat` and `store`.
ghost use Rattle.std.specs.Prelude.{◌≡◌};
ghost use Rattle.program_io.specs.Counted.{Writes};
ghost use Rattle.transfer_commands.specs.StreamTexts.{cat_text, store_cause_text, late_text, refused_request_text, store_text, stored_text};

use crate::stream_fault::{CatFault, StoreCause, StoreFault};
use io_fault_text::{say_io_fault, say_refused};
use program_io::{Counted, WriteFault};
use request_queue::SubmitFault;
use std::io::Write;

/// Prints the line of a fault; prints nothing if the writer failed.
///
/// # Errors
///
/// `WriteFault` if the writer failed.
pub fn say_cat_fault<W: Write>(writer: &mut Counted<W>, fault: CatFault) -> Result<(), WriteFault>
    ensures { Writes W.contents writer.old writer.new (cat_text fault) result }
{
    match fault {
        CatFault::Range => say_request_fault(writer, SubmitFault::OutOfRange),
        CatFault::Read(fault) => say_io_fault(writer, fault),
        CatFault::Write => Ok(()),
    }
}

/// Prints one line if nothing was done; otherwise how many sectors were written, and then why not all.
///
/// # Errors
///
/// `WriteFault` if the writer failed.
pub fn say_store_fault<W: Write>(
    writer: &mut Counted<W>,
    fault: StoreFault,
) -> Result<(), WriteFault>
    ensures { Writes W.contents writer.old writer.new (store_text fault) result }
{
    let StoreFault { written, cause } = fault;
    match cause {
        StoreCause::ReadOnly => say_request_fault(writer, SubmitFault::ReadOnly),
        StoreCause::Range => say_request_fault(writer, SubmitFault::OutOfRange),
        StoreCause::Length => say_request_fault(writer, SubmitFault::Length),
        StoreCause::TooLong => say_late(writer, written, b"refused 7 TooLong\n"),
        StoreCause::PartSector => say_late(writer, written, b"refused 8 PartSector\n"),
        StoreCause::Read => say_late(writer, written, b"refused 9 Input\n"),
        StoreCause::Write(fault) | StoreCause::Sync(fault) => {
            say_stored(writer, written)?;
            say_io_fault(writer, fault)
        }
    }
}

#[tactic(auto, unfolding(crate::specs::StreamTexts::late_text))]
fn say_late<W: Write>(writer: &mut Counted<W>, written: u64, line: &[u8]) -> Result<(), WriteFault>
    ensures { Writes W.contents writer.old writer.new (late_text written line.now) result }
{
    say_stored(writer, written)?;
    writer.put(line)
}

/// Prints `written N`.
///
/// # Errors
///
/// `WriteFault` if the writer failed.
pub fn say_stored<W: Write>(writer: &mut Counted<W>, written: u64) -> Result<(), WriteFault>
    ensures { Writes W.contents writer.old writer.new (stored_text written) result }
{
    writer.print(format_args!("written {written}\n"))
}

// Prints `refused K NAME`, as for a request.
fn say_request_fault<W: Write>(
    writer: &mut Counted<W>,
    fault: SubmitFault,
) -> Result<(), WriteFault>
    ensures { Writes W.contents writer.old writer.new (refused_request_text fault) result }
{
    say_refused(writer, fault.number(), fault.name())
}
