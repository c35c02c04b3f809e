//! How a command ends early: what is printed, and the status.
ghost use Rattle.std.specs.Prelude.{true, ◌≡◌, IfSome, Some, string_bytes};
ghost use Rattle.program_io.specs.Counted.{Writes};
ghost use Rattle.stack_commands.specs.Contexts.{IsToldAs, IsToldBy};
ghost use Rattle.stack_commands.specs.EndingObjects.{ending_object};
ghost use Rattle.stack_commands.specs.Endings.{ending_status, ending_text};

use crate::ending_object::ending_object;
use crate::fault::CommandFault;
use crate::fault_texts::{
    io_status, recovering_status, request_status, say_faults, say_linux_refusal,
    say_recovering_fault, say_request_fault, say_service_fault, say_stack_fault, say_stream_fault,
    stream_status,
};
use fec_commands::{fec_status, say_fec_fault};
use io_fault_text::{say_io_fault, say_no_memory, say_usage};
use nbd_server::ServiceFault;
use partition_commands::{partitions_status, say_partitions_fault};
use program_io::{Counted, WriteFault};
use std::alloc::Global;
use std::io::Write;
use std::str;
use verity_commands::{say_tree_fault, say_verity_fault, tree_status, verity_status};

const REFUSED: u8 = 1;

const USAGE: u8 = 2;

const FAULT: u8 = 3;

const BROKEN_CLIENT: u8 = 4;

/// Prints why a command ends early, as an object if `json` is set and memory suffices for it, and returns its status: 1 if that
/// can't be written. A failure of the writer stays known.
pub fn end_as<W: Write>(
    alloc: Global,
    writer: &mut Counted<W>,
    fault: CommandFault<'_>,
    json: bool,
) -> u8
    ensures told { IsToldAs W.contents writer.old writer.new json fault.entry result }
    ensures failed { writer.old.failed ≡ true → writer.new.failed ≡ true }
{
    if !json {
        return end(writer, fault);
    }
    match object_of(alloc, fault) {
        Some(object) => put_object(writer, fault, object.as_str()),
        None => end(writer, fault),
    }
}

// The object of the line of a fault; `None` if it has no line, or if memory runs out.
fn object_of(alloc: Global, fault: CommandFault<'_>) -> Option<String>
    ensures { IfSome result (λ object. ending_object (ending_text fault.entry) ≡ Some (string_bytes object)) }
{
    let mut kept = Counted::new(Vec::new(alloc));
    match say_fault(&mut kept, fault) {
        Ok(()) => {
            let line = kept.into_inner();
            object_in(alloc, line.as_slice())
        }
        Err(_) => None,
    }
}

// The object of the first line of a text.
fn object_in(alloc: Global, bytes: &[u8]) -> Option<String>
    ensures { IfSome result (λ object. ending_object bytes.now ≡ Some (string_bytes object)) }
{
    match str::from_utf8(bytes) {
        Ok(text) => ending_object(alloc, text),
        Err(_error) => None,
    }
}

// Prints the object of a fault.
fn put_object<W: Write>(writer: &mut Counted<W>, fault: CommandFault<'_>, object: &str) -> u8
    requires { ending_object (ending_text fault) ≡ Some object.now }
    ensures told { IsToldAs W.contents writer.old writer.new true fault.entry result }
    ensures failed { writer.old.failed ≡ true → writer.new.failed ≡ true }
{
    match writer.put(object.as_bytes()) {
        Ok(()) => status_of(fault),
        Err(_) => REFUSED,
    }
}

/// Prints the line that says why a command ends early, and returns its status: 1 if that can't be written. A failure of the
/// writer stays known.
pub fn end<W: Write>(writer: &mut Counted<W>, fault: CommandFault<'_>) -> u8
    ensures told { IsToldBy W.contents writer.old writer.new fault.entry result }
    ensures failed { writer.old.failed ≡ true → writer.new.failed ≡ true }
{
    match say_fault(writer, fault) {
        Ok(()) => status_of(fault),
        Err(_) => REFUSED,
    }
}

// 1 refused, 2 usage, 3 a fault of the stack or images that differ, 4 a client that breaks the protocol.
fn status_of(fault: CommandFault<'_>) -> u8
    ensures { result ≡ ending_status fault.entry }
{
    match fault {
        CommandFault::Usage(_) => USAGE,
        CommandFault::Request(fault) => request_status(fault),
        CommandFault::Io(fault) => io_status(fault),
        CommandFault::Recovering(fault) => recovering_status(fault),
        CommandFault::Stream(fault) => stream_status(fault),
        CommandFault::Verity(fault) => verity_status(fault),
        CommandFault::Fec(fault) => fec_status(fault),
        CommandFault::Partitions(fault) => partitions_status(fault),
        CommandFault::Trees(fault) => tree_status(fault),
        CommandFault::Service(
            ServiceFault::Lost
            | ServiceFault::Magic
            | ServiceFault::Flags
            | ServiceFault::NoSuchExport
            | ServiceFault::TooManyOptions,
        ) => BROKEN_CLIENT,
        CommandFault::Faults(_) => FAULT,
        _ => REFUSED,
    }
}

// Prints one line, or none if the session itself failed, or the input or output of a client.
fn say_fault<W: Write>(writer: &mut Counted<W>, fault: CommandFault<'_>) -> Result<(), WriteFault>
    ensures { Writes W.contents writer.old writer.new (ending_text fault.entry) result }
{
    match fault {
        CommandFault::Usage(_) => say_usage(writer),
        CommandFault::NoMemory => say_no_memory(writer),
        CommandFault::Stack(fault) => say_stack_fault(writer, fault),
        CommandFault::Linux(refusal) => say_linux_refusal(writer, refusal),
        CommandFault::Request(fault) => say_request_fault(writer, fault),
        CommandFault::Io(fault) => say_io_fault(writer, fault),
        CommandFault::Recovering(fault) => say_recovering_fault(writer, fault),
        CommandFault::Stream(fault) => say_stream_fault(writer, fault),
        CommandFault::Verity(fault) => say_verity_fault(writer, fault),
        CommandFault::Fec(fault) => say_fec_fault(writer, fault),
        CommandFault::Partitions(fault) => say_partitions_fault(writer, fault),
        CommandFault::Trees(fault) => say_tree_fault(writer, fault),
        CommandFault::Session(_) => Ok(()),
        CommandFault::Service(fault) => say_service_fault(writer, fault),
        CommandFault::Faults(tally) => say_faults(writer, tally),
    }
}
