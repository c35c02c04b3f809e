//! Printing bytes in hexadecimal.
ghost use Rattle.std.specs.Prelude.{◌≡◌, ◌≤◌, ◌+◌, ◌∷◌, ◌++◌, IfErr, OnOk, length};
ghost use Rattle.allocation.specs.Asked.{asked};
ghost use Rattle.hex.specs.Hex.{encode_lower};

use crate::print::push_spaced;
use allocation::OutOfMemory;

/// Appends a space and at most 256 bytes in lower-case hexadecimal.
pub(crate) fn push_digits(text: &mut Vec<u8>, bytes: &[u8]) -> Result<(), OutOfMemory>
    requires { length bytes.now ≤ 256 }
    ensures ok { OnOk result (text.new.items ≡ text.old.items ++ 32 ∷ encode_lower bytes.now) }
    ensures err { IfErr result (λ e. asked e ≤ 1 + length (encode_lower bytes.now)) }
{
    let mut buffer = [0u8; 512];
    let digits = &mut buffer[..2 * bytes.len()];
    hex::encode_to_slice(bytes, digits).unwrap();
    push_spaced(text, digits)?;
    Ok(())
}
