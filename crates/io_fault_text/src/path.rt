//! Printing paths.
ghost use Rattle.std.specs.Prelude.{◌≡◌, IsTrue, length};
ghost use Rattle.program_io.specs.Counted.{Writes};
ghost use Rattle.io_fault_text.specs.Paths.{is_control, shown_byte, shown_path};

use program_io::{Counted, WriteFault};
use std::io::Write;

/// Writes the path with each control character as `\xHH`, so that it stays on one line.
///
/// # Errors
///
/// `WriteFault` if the writer failed.
pub fn say_path<W: Write>(writer: &mut Counted<W>, path: &str) -> Result<(), WriteFault>
    ensures { Writes W.contents writer.old writer.new (shown_path path.now) result }
{
    let bytes = path.as_bytes();
    let mut from = 0;
    for (at, byte) in bytes.iter().enumerate() {
        if is_control(*byte) {
            writer.put(&bytes[from..at])?;
            say_control(writer, *byte)?;
            from = at + 1;
        }
    }
    writer.put(&bytes[from..])
}

// Returns whether the byte is a control character: below the space, or DEL.
fn is_control(byte: u8) -> bool
    ensures { result ≡ is_control byte }
{
    byte < 0x20 || byte == 0x7f
}

// Writes a control character as `\xHH`.
fn say_control<W: Write>(writer: &mut Counted<W>, byte: u8) -> Result<(), WriteFault>
    requires { IsTrue (is_control byte) }
    ensures { Writes W.contents writer.old writer.new (shown_byte byte) result }
{
    let mut digits = [0; 2];
    hex::encode_to_slice(&[byte], &mut digits).unwrap();
    writer.put(b"\\x")?;
    writer.put(&digits)
}
