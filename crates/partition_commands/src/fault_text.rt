//! What is printed of partitions that aren't printed, and the status.
ghost use Rattle.std.specs.Prelude.{◌≡◌};
ghost use Rattle.program_io.specs.Counted.{Writes};
ghost use Rattle.partition_commands.specs.FaultTexts.{partitions_status, partitions_text};

use crate::fault::PartitionsFault;
use crate::refusal::say_refusal;
use fec_commands::{fec_status, say_fec_fault};
use io_fault_text::{say_no_memory, say_refused, say_unopened};
use program_io::{Counted, WriteFault};
use std::io::Write;
use verity_commands::say_image_fault;

const REFUSED: u8 = 1;

/// Prints the line of a fault; prints nothing if a line couldn't be written.
///
/// # Errors
///
/// `WriteFault` if the writer failed.
pub fn say_partitions_fault<W: Write>(
    writer: &mut Counted<W>,
    fault: PartitionsFault<'_>,
) -> Result<(), WriteFault>
    ensures { Writes W.contents writer.old writer.new (partitions_text fault.entry) result }
{
    match fault {
        PartitionsFault::NoMemory => say_no_memory(writer),
        PartitionsFault::Open(file) => say_unopened(writer, file),
        PartitionsFault::Pin(fault) => say_image_fault(writer, fault),
        PartitionsFault::Refused(refusal) => say_refusal(writer, refusal),
        PartitionsFault::Fec(fault) => say_fec_fault(writer, fault),
        PartitionsFault::NotLoadable => say_refused(writer, 46, "NotLoadable"),
        PartitionsFault::Write => Ok(()),
    }
}

/// The status of a command that ends so: 1, refused; of parity as `table --fec` has it.
pub fn partitions_status(fault: PartitionsFault<'_>) -> u8
    ensures { result ≡ partitions_status fault.entry }
{
    match fault {
        PartitionsFault::Fec(fault) => fec_status(fault),
        PartitionsFault::NoMemory
        | PartitionsFault::Open(_)
        | PartitionsFault::Pin(_)
        | PartitionsFault::Refused(_)
        | PartitionsFault::NotLoadable
        | PartitionsFault::Write => REFUSED,
    }
}
