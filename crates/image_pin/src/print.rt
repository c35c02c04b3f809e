//! Printing pins.
ghost use Rattle.std.specs.Prelude.{◌≡◌, ◌≤◌, ◌++◌, Ok, IfErr, IfOk, OnOk, decimal, length};
ghost use Rattle.allocation.specs.Asked.{asked};
ghost use Rattle.verity_format.specs.Line.{salt_word};
ghost use Rattle.hex.specs.Hex.{IsBytes, encode_lower};
ghost use Rattle.image_pin.specs.PinTexts.{pin_line, pin_of, pin_text};

use crate::name::PinName;
use crate::pin::Pin;
use allocation::{OutOfMemory, append, copied, push};
use itoa::Buffer;
use std::alloc::Global;

/// Returns the text of a pin: its header, and one line each for the root hash, the salt, the block sizes and the
/// number of data blocks.
///
/// # Errors
///
/// `OutOfMemory` if an allocation of at most 512 bytes fails.
pub fn print_pin(alloc: Global, pin: &Pin) -> Result<Vec<u8>, OutOfMemory>
    ensures text { IfOk result (λ text. text.items ≡ pin_text pin.now) }
    ensures reads_back { IfOk result (λ text. pin_of text.items ≡ Ok pin.now) }
    ensures err { IfErr result (λ e. asked e ≤ 512) }
{
    let mut text = copied(alloc, b"dmstack-pin 1\n")?;
    push_hex(&mut text, PinName::Root, pin.root.as_bytes())?;
    push_salt(&mut text, pin.salt.bytes())?;
    push_number(&mut text, PinName::DataBlockSize, u64::from(pin.data_block))?;
    push_number(&mut text, PinName::HashBlockSize, u64::from(pin.hash_block))?;
    push_number(&mut text, PinName::DataBlocks, pin.blocks)?;
    Ok(text)
}

// Appends a name, a space, a value and a newline.
fn push_line(text: &mut Vec<u8>, name: PinName, value: &[u8]) -> Result<(), OutOfMemory>
    requires { length value.now ≤ 512 }
    ensures ok { OnOk result (text.new.items ≡ text.old.items ++ pin_line name value.now) }
    ensures err { IfErr result (λ e. asked e ≤ 512) }
{
    append(text, name.text().as_bytes())?;
    push(text, b' ')?;
    append(text, value)?;
    push(text, b'\n')?;
    Ok(())
}

// Appends a name and at most 256 bytes in hexadecimal.
fn push_hex(text: &mut Vec<u8>, name: PinName, bytes: &[u8]) -> Result<(), OutOfMemory>
    requires { length bytes.now ≤ 256 }
    ensures printed { OnOk result (text.new.items ≡ text.old.items ++ pin_line name (encode_lower bytes.now)) }
    ensures bytes { IsBytes bytes.now }
    ensures err { IfErr result (λ e. asked e ≤ 512) }
{
    let mut buffer = [0u8; 512];
    let digits = &mut buffer[..2 * bytes.len()];
    hex::encode_to_slice(bytes, digits).unwrap();
    push_line(text, name, digits)
}

// Appends the salt in hexadecimal, or `-` if it is empty.
fn push_salt(text: &mut Vec<u8>, salt: &[u8]) -> Result<(), OutOfMemory>
    requires { length salt.now ≤ 256 }
    ensures printed { OnOk result (text.new.items ≡ text.old.items ++ pin_line PinName.Salt (salt_word salt.now)) }
    ensures bytes { IsBytes salt.now }
    ensures err { IfErr result (λ e. asked e ≤ 512) }
{
    if salt.is_empty() {
        return push_line(text, PinName::Salt, b"-");
    }
    push_hex(text, PinName::Salt, salt)
}

fn push_number(text: &mut Vec<u8>, name: PinName, number: u64) -> Result<(), OutOfMemory>
    ensures ok { OnOk result (text.new.items ≡ text.old.items ++ pin_line name (decimal number)) }
    ensures err { IfErr result (λ e. asked e ≤ 512) }
{
    let mut digits = Buffer::new();
    push_line(text, name, digits.format(number).as_bytes())
}
