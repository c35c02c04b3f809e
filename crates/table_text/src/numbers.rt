//! Reading numbers.
ghost use Rattle.std.specs.Prelude.{◌≡◌};
ghost use Rattle.dm_table.specs.Numbers.{number};
ghost use Rattle.dm_table.specs.Arguments.{number_at};

use dm_table::TextKind;

/// Returns the value of one or more decimal digits if it is below 2^64, and otherwise `None`. Leading zeros are
/// allowed; a sign, a base prefix and white space are not.
pub fn number(word: &[u8]) -> Option<u64>
    ensures { result ≡ number word.now }
{
    if word.is_empty() {
        return None;
    }
    let mut value: u64 = 0;
    'digits: for byte in word {
        if !byte.is_ascii_digit() {
            return None;
        }
        value = value.checked_mul(10)?.checked_add(u64::from(*byte - b'0'))?;
    }
    Some(value)
}

/// Returns the number.
///
/// # Errors
///
/// `Number` if the word isn't a number below 2^64.
pub(crate) fn read_number(word: &[u8]) -> Result<u64, TextKind>
    ensures { result ≡ number_at word.now }
{
    number(word).ok_or(TextKind::Number)
}
