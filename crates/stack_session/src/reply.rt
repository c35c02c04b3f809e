//! Writes the replies. Each function returns `WriteFault` if the writer failed.
ghost use Rattle.std.specs.Prelude.{◌≡◌, ◌+◌, ◌*◌, ◌<◌, decimal, ◌==◌, length, slice_index};
ghost use Rattle.std.specs.List.{list_all};
ghost use Rattle.program_io.specs.Counted.{Writes};
ghost use Rattle.stack_session.specs.Texts.{busy_text, loaded_text, fault_text, load_refusal_text, removed_text, removal_text, ticket_text, more_reply, no_ticket_text, written_text, submit_text, reply_text, sector_line, moved_text, digits_line, sectors_text};
ghost use Rattle.stack_session.specs.Replies.{cost_of};

use dm_table::TextFault;
use io_fault_text::{say_no_memory, say_refused};
use program_io::{Counted, WriteFault};
use request_queue::{Reply, SubmitFault, Ticket};
use stack_config::{Config, DevId};
use stack_loader::{Refusal, RemoveFault};
use std::io::Write;

const SECTOR: usize = 512;

/// Writes `loaded K`.
///
/// # Errors
///
/// `WriteFault` if the writer failed.
pub fn say_loaded<W: Write>(writer: &mut Counted<W>, count: usize) -> Result<(), WriteFault>
    ensures { Writes W.contents writer.old writer.new (loaded_text count) result }
{
    writer.print(format_args!("loaded {count}\n"))
}

/// Writes `busy`.
///
/// # Errors
///
/// `WriteFault` if the writer failed.
pub fn say_busy<W: Write>(writer: &mut Counted<W>) -> Result<(), WriteFault>
    ensures { Writes W.contents writer.old writer.new busy_text result }
{
    writer.put(b"busy\n")
}

/// Writes `text fault E L K NAME`.
///
/// # Errors
///
/// `WriteFault` if the writer failed.
pub fn say_text_fault<W: Write>(writer: &mut Counted<W>, fault: TextFault) -> Result<(), WriteFault>
    ensures { Writes W.contents writer.old writer.new (fault_text fault) result }
{
    let TextFault { entry, line, kind } = fault;
    let (number, name) = (kind.number(), kind.name());
    writer.print(format_args!("text fault {entry} {line} {number} {name}\n"))
}

/// Writes `refused K NAME device D line L`.
///
/// # Errors
///
/// `WriteFault` if the writer failed.
pub fn say_refusal<W: Write>(writer: &mut Counted<W>, refusal: Refusal) -> Result<(), WriteFault>
    ensures { Writes W.contents writer.old writer.new (load_refusal_text refusal) result }
{
    let Refusal { kind, device, line } = refusal;
    let (number, name) = (kind.number(), kind.name());
    writer.print(format_args!("refused {number} {name} device {device} line {line}\n"))
}

/// Writes `ticket T`.
///
/// # Errors
///
/// `WriteFault` if the writer failed.
pub fn say_ticket<W: Write>(writer: &mut Counted<W>, ticket: Ticket) -> Result<(), WriteFault>
    ensures { Writes W.contents writer.old writer.new (ticket_text ticket.0) result }
{
    let Ticket(number) = ticket;
    writer.print(format_args!("ticket {number}\n"))
}

/// Writes `more`.
///
/// # Errors
///
/// `WriteFault` if the writer failed.
pub fn say_more<W: Write>(writer: &mut Counted<W>) -> Result<(), WriteFault>
    ensures { Writes W.contents writer.old writer.new more_reply result }
{
    writer.put(b"more\n")
}

/// Writes `refused 1 NoSuchTicket`.
///
/// # Errors
///
/// `WriteFault` if the writer failed.
pub fn say_no_ticket<W: Write>(writer: &mut Counted<W>) -> Result<(), WriteFault>
    ensures { Writes W.contents writer.old writer.new no_ticket_text result }
{
    writer.put(b"refused 1 NoSuchTicket\n")
}

/// Writes `refused K NAME`, or `no memory`.
///
/// # Errors
///
/// `WriteFault` if the writer failed.
pub fn say_submit_fault<W: Write>(
    writer: &mut Counted<W>,
    fault: SubmitFault,
) -> Result<(), WriteFault>
    ensures { Writes W.contents writer.old writer.new (submit_text fault) result }
{
    if fault == SubmitFault::NoMemory {
        return say_no_memory(writer);
    }
    say_refused(writer, fault.number(), fault.name())
}

/// Writes `removed`.
///
/// # Errors
///
/// `WriteFault` if the writer failed.
pub fn say_removed<W: Write>(writer: &mut Counted<W>) -> Result<(), WriteFault>
    ensures { Writes W.contents writer.old writer.new removed_text result }
{
    writer.put(b"removed\n")
}

/// Writes `refused K NAME`.
///
/// # Errors
///
/// `WriteFault` if the writer failed.
pub fn say_removal_fault<W: Write>(
    writer: &mut Counted<W>,
    fault: RemoveFault,
) -> Result<(), WriteFault>
    ensures { Writes W.contents writer.old writer.new (removal_text fault) result }
{
    say_refused(writer, fault.number(), fault.name())
}

/// Writes `written`.
///
/// # Errors
///
/// `WriteFault` if the writer failed.
pub fn say_written<W: Write>(writer: &mut Counted<W>) -> Result<(), WriteFault>
    ensures { Writes W.contents writer.old writer.new written_text result }
{
    writer.put(b"written\n")
}

// Writes a number.
fn say_number<W: Write>(writer: &mut Counted<W>, number: u128) -> Result<(), WriteFault>
    ensures { Writes W.contents writer.old writer.new (decimal number) result }
{
    writer.print(number)
}

// Whether all bytes are equal. Two slices, shifted by one byte, are compared, because slices are compared in lanes.
fn is_filled(bytes: &[u8]) -> bool
    requires { 0 < length bytes.now }
    ensures { result ≡ list_all (λ b. b == slice_index bytes.now 0) bytes.now }
{
    bytes[1..] == bytes[..bytes.len() - 1]
}

// Writes a line of a number, a text and digits.
fn say_digits<W: Write>(
    writer: &mut Counted<W>,
    number: u128,
    between: &[u8],
    digits: &[u8],
) -> Result<(), WriteFault>
    ensures { Writes W.contents writer.old writer.new (digits_line number between.now digits.now) result }
{
    say_number(writer, number)?;
    writer.put(between)?;
    writer.put(digits)?;
    writer.put(b"\n")
}

// Writes a sector: its number, then one byte if all its bytes are equal, otherwise all digits.
#[tactic(auto, unfolding(crate::specs::Texts::sector_line))]
fn say_sector<W: Write>(
    writer: &mut Counted<W>,
    number: u128,
    sector: &[u8],
) -> Result<(), WriteFault>
    requires { length sector.now ≡ 512 }
    ensures { Writes W.contents writer.old writer.new (sector_line number sector.now) result }
{
    if is_filled(sector) {
        let mut digits = [0u8; 2];
        hex::encode_to_slice(&sector[..1], &mut digits).unwrap();
        return say_digits(writer, number, b" all ", &digits);
    }
    let mut digits = [0u8; 2 * SECTOR];
    hex::encode_to_slice(sector, &mut digits).unwrap();
    say_digits(writer, number, b" ", &digits)
}

/// Writes the sectors with these bytes; the first of them has the number `first`.
///
/// # Errors
///
/// `WriteFault` if the writer failed.
pub fn say_sectors<W: Write>(
    writer: &mut Counted<W>,
    first: u64,
    bytes: &[u8],
) -> Result<(), WriteFault>
    ensures { Writes W.contents writer.old writer.new (sectors_text first bytes.now) result }
{
    // The number of a sector doesn't wrap, whatever `first` is.
    let mut number = u128::from(first);
    let mut rest = bytes;
    'sectors: while rest.len() >= SECTOR {
        let (sector, after) = rest.split_at(SECTOR);
        say_sector(writer, number, sector)?;
        number += 1;
        rest = after;
    }
    Ok(())
}

/// Writes the result of a request that began at sector `first`: its sectors, or `written`.
///
/// # Errors
///
/// `WriteFault` if the writer failed.
pub fn say_reply<W: Write>(
    writer: &mut Counted<W>,
    first: u64,
    reply: Reply,
) -> Result<(), WriteFault>
    ensures { Writes W.contents writer.old writer.new (reply_text first reply) result }
{
    match reply {
        Reply::Sectors(answer) => say_sectors(writer, first, answer.bytes.as_slice()),
        Reply::Written => say_written(writer),
    }
}

/// Writes `sectors S depth D read R write W`.
///
/// # Errors
///
/// `WriteFault` if the writer failed.
pub fn say_cost<W: Write>(
    writer: &mut Counted<W>,
    config: &Config,
    d: DevId,
) -> Result<(), WriteFault>
    requires { d.0 < length config.now.devices }
    ensures { Writes W.contents writer.old writer.new (cost_of config.now d.0) result }
{
    let sectors = config.sectors(d);
    let depth = config.depth(d);
    let read = config.read_cost(d);
    let write = config.write_cost(d);
    writer.print(format_args!("sectors {sectors} depth {depth} read {read} write {write}\n"))
}

/// Writes `moved R W`.
///
/// # Errors
///
/// `WriteFault` if the writer failed.
pub fn say_moved<W: Write>(
    writer: &mut Counted<W>,
    reads: u64,
    writes: u64,
) -> Result<(), WriteFault>
    ensures { Writes W.contents writer.old writer.new (moved_text reads writes) result }
{
    writer.print(format_args!("moved {reads} {writes}\n"))
}
