//! The numbers in a map file.
ghost use Rattle.std.specs.Prelude.{◌≡◌};
ghost use Rattle.rescue_map.specs.Numbers.{hexadecimal, map_number};

use table_text::number;

// Returns the value of one or more hexadecimal digits if it is below 2^64.
fn hexadecimal(word: &[u8]) -> Option<u64>
    ensures { result ≡ hexadecimal word.now }
{
    if word.is_empty() {
        return None;
    }
    let mut value: u64 = 0;
    'digits: for byte in word {
        let digit = char::from(*byte).to_digit(16)?;
        value = value.checked_mul(16)?.checked_add(u64::from(digit))?;
    }
    Some(value)
}

/// Returns a number below 2^64, hexadecimal after `0x` and otherwise decimal. Octal numbers are rejected.
pub(crate) fn map_number(word: &[u8]) -> Option<u64>
    ensures { result ≡ map_number word.now }
{
    if word.len() > 1 && word[0] == b'0' {
        if word[1] == b'x' || word[1] == b'X' {
            return hexadecimal(&word[2..]);
        }
        return None;
    }
    number(word)
}
