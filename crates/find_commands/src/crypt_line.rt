//! The line of a stack text for a segment of a LUKS2 volume.
ghost use Rattle.std.specs.Prelude.{◌≡◌, codes, string_bytes, IfOk};
ghost use Rattle.std.specs.Str.{bytes_eq};
ghost use Rattle.serde_json.specs.Data.{string};
ghost use Rattle.serde_json.specs.View.{view};
ghost use Rattle.find_commands.specs.CryptLines.{crypt_line, length_text};
ghost use Rattle.find_commands.specs.Objects.{line_json};

use crate::luks::Extent;
use allocation::number;
use serde_json::Value;
use std::alloc::{AllocError, Global};

/// Returns the line, with KEY for the key and LENGTH for a length that isn't stated. Null if `crypt` lines have another cipher.
///
/// # Errors
///
/// `AllocError` if an allocation was refused.
pub(crate) fn line_value(alloc: Global, cipher: &str, extent: &Extent) -> Result<Value, AllocError>
    ensures { IfOk result (λ value. view value ≡ line_json cipher.now extent.now) }
{
    if is_known(cipher) {
        return known_line(alloc, extent);
    }
    Ok(Value::Null)
}

fn is_known(cipher: &str) -> bool
    ensures { result ≡ bytes_eq cipher.now (codes "aes-xts-plain64") }
{
    cipher.as_bytes() == b"aes-xts-plain64".as_slice()
}

fn known_line(alloc: Global, extent: &Extent) -> Result<Value, AllocError>
    ensures { IfOk result (λ value. view value ≡ string (crypt_line extent.now)) }
{
    let line = crypt_line(alloc, extent)?;
    Ok(Value::String(line))
}

#[tactic(auto, unfolding(crate::specs::CryptLines::crypt_line))]
fn crypt_line(alloc: Global, extent: &Extent) -> Result<String, AllocError>
    ensures { IfOk result (λ line. string_bytes line ≡ crypt_line extent.now) }
{
    let length = length_text(alloc, extent.size)?;
    let iv_tweak = extent.iv_tweak;
    let offset = extent.offset;
    let unit = extent.sector_size;
    format!(in alloc;
        "0 {length} crypt aes-xts-plain64 KEY {iv_tweak} DISK {offset} 1 sector_size:{unit}"
    )
}

fn length_text(alloc: Global, size: Option<u64>) -> Result<String, AllocError>
    ensures { IfOk result (λ text. string_bytes text ≡ length_text size) }
{
    match size {
        Some(length) => Ok(number(alloc, length)?),
        None => String::from_str(alloc, "LENGTH"),
    }
}
