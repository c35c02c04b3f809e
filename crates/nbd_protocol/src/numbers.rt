//! Numbers in network byte order.
ghost use Rattle.std.specs.Prelude.{◌≡◌, ◌+◌, ◌≤◌, length};
ghost use Rattle.program_io.specs.Counted.{Writes};
ghost use Rattle.nbd_protocol.specs.Numbers.{bytes16, bytes32, bytes64, big_endian16, big_endian32, big_endian64};

use program_io::{Counted, WriteFault};
use std::io::Write;

/// Returns the number in the two bytes from `at` on.
pub fn number16(bytes: &[u8], at: usize) -> u16
    requires { at + 2 ≤ length bytes.now }
    ensures { result ≡ big_endian16 bytes.now at }
{
    let mut number = [0; 2];
    number.copy_from_slice(&bytes[at..at + 2]);
    u16::from_be_bytes(number)
}

/// Returns the number in the four bytes from `at` on.
pub fn number32(bytes: &[u8], at: usize) -> u32
    requires { at + 4 ≤ length bytes.now }
    ensures { result ≡ big_endian32 bytes.now at }
{
    let mut number = [0; 4];
    number.copy_from_slice(&bytes[at..at + 4]);
    u32::from_be_bytes(number)
}

/// Returns the number in the eight bytes from `at` on.
pub fn number64(bytes: &[u8], at: usize) -> u64
    requires { at + 8 ≤ length bytes.now }
    ensures { result ≡ big_endian64 bytes.now at }
{
    let mut number = [0; 8];
    number.copy_from_slice(&bytes[at..at + 8]);
    u64::from_be_bytes(number)
}

/// Writes a number in two bytes.
///
/// # Errors
///
/// `WriteFault` if the writer failed.
#[tactic(auto, unfolding(crate::specs::Numbers::bytes16))]
pub fn put16<W: Write>(writer: &mut Counted<W>, number: u16) -> Result<(), WriteFault>
    ensures { Writes W.contents writer.old writer.new (bytes16 number) result }
{
    writer.put(&number.to_be_bytes())
}

/// Writes a number in four bytes.
///
/// # Errors
///
/// `WriteFault` if the writer failed.
#[tactic(auto, unfolding(crate::specs::Numbers::bytes32))]
pub fn put32<W: Write>(writer: &mut Counted<W>, number: u32) -> Result<(), WriteFault>
    ensures { Writes W.contents writer.old writer.new (bytes32 number) result }
{
    writer.put(&number.to_be_bytes())
}

/// Writes a number in eight bytes.
///
/// # Errors
///
/// `WriteFault` if the writer failed.
#[tactic(auto, unfolding(crate::specs::Numbers::bytes64))]
pub fn put64<W: Write>(writer: &mut Counted<W>, number: u64) -> Result<(), WriteFault>
    ensures { Writes W.contents writer.old writer.new (bytes64 number) result }
{
    writer.put(&number.to_be_bytes())
}
