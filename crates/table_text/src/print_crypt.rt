//! Printing the arguments of a `crypt` line.
ghost use Rattle.std.specs.Prelude.{◌≡◌, ℕ, ◌+◌, ◌*◌, ◌≤◌, ◌∷◌, ◌++◌, IfErr, OnOk, codes, length, replicate};
ghost use Rattle.allocation.specs.Asked.{asked};
ghost use Rattle.hex.specs.Hex.{encode_lower};
ghost use Rattle.table_text.specs.ArgumentWords.{crypt_words, key_word};
ghost use Rattle.table_text.specs.Print.{PrintsWords, printed_length};

use crate::print::{print_base, push_spaced, push_spaced_number};
use crate::print_digits::push_digits;
use crate::print_options::print_options;
use allocation::OutOfMemory;
use dm_table::{Crypt, Key};

/// Prints the type and arguments of a `crypt` line. The key is printed as zeros of the same length unless `show_keys`
/// is set.
pub(crate) fn print_crypt(
    text: &mut Vec<u8>,
    crypt: &Crypt,
    show_keys: bool,
) -> Result<(), OutOfMemory>
    ensures ok { OnOk result (PrintsWords text.old (codes "crypt" ∷ crypt_words show_keys crypt.now) text.new) }
    ensures err { IfErr result (λ e. asked e ≤ printed_length (codes "crypt" ∷ crypt_words show_keys crypt.now)) }
{
    push_spaced(text, b"crypt")?;
    push_spaced(text, b"aes-xts-plain64")?;
    print_key(text, &crypt.key, show_keys)?;
    push_spaced_number(text, crypt.iv_offset)?;
    print_base(text, &crypt.base)?;
    print_options(text, crypt.options.as_slice())?;
    Ok(())
}

fn print_key(text: &mut Vec<u8>, key: &Key, show_keys: bool) -> Result<(), OutOfMemory>
    ensures ok { OnOk result (text.new.items ≡ text.old.items ++ 32 ∷ key_word show_keys key.now) }
    ensures err { IfErr result (λ e. asked e ≤ 1 + length (key_word show_keys key.now)) }
{
    let bytes = key.bytes();
    if show_keys {
        push_digits(text, bytes)
    } else {
        push_zeros(text, 2 * bytes.len())
    }
}

fn push_zeros(text: &mut Vec<u8>, count: usize) -> Result<(), OutOfMemory>
    requires { count ≤ 128 }
    ensures ok { OnOk result (text.new.items ≡ text.old.items ++ 32 ∷ replicate count 48) }
    ensures err { IfErr result (λ e. asked e ≤ 1 + length {A = ℕ} (replicate count 48)) }
{
    let zeros = [b'0'; 128];
    push_spaced(text, &zeros[..count])?;
    Ok(())
}
