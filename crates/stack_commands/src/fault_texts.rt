//! The texts of the faults of stacks, of requests, of scans of devices, and of their bytes; and the statuses.
ghost use Rattle.std.specs.Prelude.{◌≡◌};
ghost use Rattle.program_io.specs.Counted.{Writes};
ghost use Rattle.stack_commands.specs.FaultTexts.{config_text, faults_text, io_status, linux_text, outside_text, recovering_status, recovering_text, request_status, request_text, service_text, stack_fault_text, stream_status, stream_text, too_small_text};

use io_fault_text::{say_io_fault, say_no_memory, say_path, say_refused, say_unopened};
use linux_rules::LinuxRefusal;
use nbd_server::{ServiceFault, Tally};
use program_io::{Counted, WriteFault};
use request_queue::SubmitFault;
use scan_commands::{RecoveringFault, say_counts, say_pass_fault};
use stack_engine::IoFault;
use stack_files::StackFault;
use stack_loader::ConfigFault;
use stack_session::{say_refusal, say_submit_fault, say_text_fault};
use std::io::Write;
use transfer_commands::{
    RequestFault, StreamFault, cat_status, say_cat_fault, say_store_fault, store_status,
};

const REFUSED: u8 = 1;

const FAULT: u8 = 3;

/// Prints the line of a fault.
///
/// # Errors
///
/// `WriteFault` if the writer failed.
pub fn say_stack_fault<W: Write>(
    writer: &mut Counted<W>,
    fault: StackFault<'_>,
) -> Result<(), WriteFault>
    ensures { Writes W.contents writer.old writer.new (stack_fault_text fault.entry) result }
{
    match fault {
        StackFault::NoMemory => say_no_memory(writer),
        StackFault::TooLong => writer.put(b"refused input\n"),
        StackFault::Open(file) => say_unopened(writer, file),
        StackFault::Outside(path) => say_outside(writer, path),
        StackFault::Leaves(fault) => say_config_fault(writer, fault),
        StackFault::Text(fault) => say_text_fault(writer, fault),
        StackFault::Load(refusal) => say_refusal(writer, refusal),
        StackFault::NoSuchDevice => say_submit_fault(writer, SubmitFault::NoSuchDevice),
    }
}

/// Prints `client K NAME` if the client broke the protocol or disconnected in the middle of a message, else nothing.
///
/// # Errors
///
/// `WriteFault` if the writer failed.
pub fn say_service_fault<W: Write>(
    writer: &mut Counted<W>,
    fault: ServiceFault,
) -> Result<(), WriteFault>
    ensures { Writes W.contents writer.old writer.new (service_text fault) result }
{
    match fault {
        ServiceFault::Lost => writer.put(b"client 1 Lost\n"),
        ServiceFault::Magic => writer.put(b"client 2 Magic\n"),
        ServiceFault::Flags => writer.put(b"client 3 Flags\n"),
        ServiceFault::NoSuchExport => writer.put(b"client 4 NoSuchExport\n"),
        ServiceFault::TooManyOptions => writer.put(b"client 5 TooManyOptions\n"),
        ServiceFault::ReadFault => Ok(()),
        ServiceFault::WriteFault => Ok(()),
    }
}

/// Prints `faults F requests R`: so many of so many requests of a client ended with a fault.
///
/// # Errors
///
/// `WriteFault` if the writer failed.
pub fn say_faults<W: Write>(writer: &mut Counted<W>, tally: Tally) -> Result<(), WriteFault>
    ensures { Writes W.contents writer.old writer.new (faults_text tally) result }
{
    let (requests, faults) = (tally.requests, tally.faults);
    writer.print(format_args!("faults {faults} requests {requests}\n"))
}

/// Prints `refused K NAME device D line L`.
///
/// # Errors
///
/// `WriteFault` if the writer failed.
pub fn say_linux_refusal<W: Write>(
    writer: &mut Counted<W>,
    refusal: LinuxRefusal,
) -> Result<(), WriteFault>
    ensures { Writes W.contents writer.old writer.new (linux_text refusal) result }
{
    let LinuxRefusal { kind, device, line } = refusal;
    let (number, name) = (kind.number(), kind.name());
    writer.print(format_args!("refused {number} {name} device {device} line {line}\n"))
}

// `refused 23 OutsideFile PATH`
fn say_outside<W: Write>(writer: &mut Counted<W>, path: &str) -> Result<(), WriteFault>
    ensures { Writes W.contents writer.old writer.new (outside_text path.now) result }
{
    writer.put(b"refused 23 OutsideFile ")?;
    say_path(writer, path)?;
    writer.put(b"\n")
}

// `refused K NAME`
fn say_config_fault<W: Write>(writer: &mut Counted<W>, fault: ConfigFault) -> Result<(), WriteFault>
    ensures { Writes W.contents writer.old writer.new (config_text fault) result }
{
    if fault == ConfigFault::NoMemory {
        return say_no_memory(writer);
    }
    say_refused(writer, fault.number(), fault.name())
}

/// Prints the line of a fault.
///
/// # Errors
///
/// `WriteFault` if the writer failed.
pub fn say_request_fault<W: Write>(
    writer: &mut Counted<W>,
    fault: RequestFault<'_>,
) -> Result<(), WriteFault>
    ensures { Writes W.contents writer.old writer.new (request_text fault.entry) result }
{
    match fault {
        RequestFault::NoMemory => say_no_memory(writer),
        RequestFault::Stack(fault) => say_stack_fault(writer, fault),
        RequestFault::Submit(fault) => say_submit_fault(writer, fault),
        RequestFault::Io(fault) => say_io_fault(writer, fault),
    }
}

/// 3 for a fault of the stack, else 1.
pub fn request_status(fault: RequestFault<'_>) -> u8
    ensures { result ≡ request_status fault.entry }
{
    match fault {
        RequestFault::Io(fault) => io_status(fault),
        _ => REFUSED,
    }
}

/// 3, or 1 where memory ran out.
pub fn io_status(fault: IoFault) -> u8
    ensures { result ≡ io_status fault }
{
    match fault {
        IoFault::NoMemory => REFUSED,
        _ => FAULT,
    }
}

/// Prints the line of a fault; prints nothing if a line couldn't be written or a JSON object states the fault.
///
/// # Errors
///
/// `WriteFault` if the writer failed.
pub fn say_recovering_fault<W: Write>(
    writer: &mut Counted<W>,
    fault: RecoveringFault<'_>,
) -> Result<(), WriteFault>
    ensures { Writes W.contents writer.old writer.new (recovering_text fault.entry) result }
{
    match fault {
        RecoveringFault::NoMemory => say_no_memory(writer),
        RecoveringFault::Stack(fault) => say_stack_fault(writer, fault),
        RecoveringFault::OutputTooSmall { needed } => say_too_small(writer, needed),
        RecoveringFault::Pass(fault) => say_pass_fault(writer, fault),
        RecoveringFault::Lost(counts) => say_counts(writer, counts),
        RecoveringFault::LostAsSaid => Ok(()),
        RecoveringFault::Write => Ok(()),
    }
}

// `refused 1 TooSmall needed N`
fn say_too_small<W: Write>(writer: &mut Counted<W>, needed: u64) -> Result<(), WriteFault>
    ensures { Writes W.contents writer.old writer.new (too_small_text needed) result }
{
    writer.print(format_args!("refused 1 TooSmall needed {needed}\n"))
}

/// 3 for lost sectors, else 1.
pub fn recovering_status(fault: RecoveringFault<'_>) -> u8
    ensures { result ≡ recovering_status fault.entry }
{
    match fault {
        RecoveringFault::Lost(_) => FAULT,
        RecoveringFault::LostAsSaid => FAULT,
        _ => REFUSED,
    }
}

/// Prints the fault in one line or two; prints nothing if a line couldn't be written.
///
/// # Errors
///
/// `WriteFault` if the writer failed.
pub fn say_stream_fault<W: Write>(
    writer: &mut Counted<W>,
    fault: StreamFault<'_>,
) -> Result<(), WriteFault>
    ensures { Writes W.contents writer.old writer.new (stream_text fault.entry) result }
{
    match fault {
        StreamFault::Stack(fault) => say_stack_fault(writer, fault),
        StreamFault::Cat(fault) => say_cat_fault(writer, fault),
        StreamFault::Store(fault) => say_store_fault(writer, fault),
        StreamFault::Write => Ok(()),
    }
}

/// 3 for a fault of the stack, else 1.
pub fn stream_status(fault: StreamFault<'_>) -> u8
    ensures { result ≡ stream_status fault.entry }
{
    match fault {
        StreamFault::Cat(fault) => cat_status(fault),
        StreamFault::Store(fault) => store_status(fault),
        _ => REFUSED,
    }
}
