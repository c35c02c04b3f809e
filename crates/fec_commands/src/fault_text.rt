//! The line and the status of a command on an image with parity that ends early: 1 for a refusal, 2 for a usage error, 3 for
//! images or parity that differ.
ghost use Rattle.std.specs.Prelude.{◌≡◌};
ghost use Rattle.program_io.specs.Counted.{Writes};
ghost use Rattle.fec_commands.specs.FaultTexts.{differs_text, fec_status, fec_text, parity_text};

use crate::fault::FecFault;
use fec_area::ParityFault;
use io_fault_text::say_no_memory;
use program_io::{Counted, WriteFault};
use std::io::Write;
use verity_commands::{say_verity_fault, verity_status};

const REFUSED: u8 = 1;

const FAULT: u8 = 3;

/// Prints the line of a fault; prints nothing if a line can't be written.
///
/// # Errors
///
/// `WriteFault` if the writer failed.
pub fn say_fec_fault<W: Write>(
    writer: &mut Counted<W>,
    fault: FecFault<'_>,
) -> Result<(), WriteFault>
    ensures { Writes W.contents writer.old writer.new (fec_text fault.entry) result }
{
    match fault {
        FecFault::Verity(fault) => say_verity_fault(writer, fault),
        FecFault::BlockSizes => writer.put(b"refused 47 OtherBlockSizes\n"),
        FecFault::Parity(fault) => say_parity_fault(writer, fault),
        FecFault::Differs(round) => say_difference(writer, round),
    }
}

/// Returns the exit status for a fault.
pub fn fec_status(fault: FecFault<'_>) -> u8
    ensures { result ≡ fec_status fault.entry }
{
    match fault {
        FecFault::Verity(fault) => verity_status(fault),
        FecFault::BlockSizes | FecFault::Parity(_) => REFUSED,
        FecFault::Differs(_) => FAULT,
    }
}

// Prints `refused K NAME`, followed by the needed sectors if the file is too small.
fn say_parity_fault<W: Write>(writer: &mut Counted<W>, fault: ParityFault) -> Result<(), WriteFault>
    ensures { Writes W.contents writer.old writer.new (parity_text fault) result }
{
    match fault {
        ParityFault::TooSmall { needed } => {
            writer.print(format_args!("refused 48 FecTooSmall needed {needed}\n"))
        }
        ParityFault::ReadOnly => writer.put(b"refused 49 FecReadOnly\n"),
        ParityFault::Device => writer.put(b"refused 50 FecDevice\n"),
        ParityFault::NoMemory => say_no_memory(writer),
    }
}

// Prints `parity differs in round N`.
fn say_difference<W: Write>(writer: &mut Counted<W>, round: u64) -> Result<(), WriteFault>
    ensures { Writes W.contents writer.old writer.new (differs_text round) result }
{
    writer.print(format_args!("parity differs in round {round}\n"))
}
