//! Reading bytes in hexadecimal.
ghost use Rattle.std.specs.Prelude.{◌≡◌, length, MatchResult};
ghost use Rattle.dm_table.specs.Arguments.{bytes_at};

use dm_table::TextKind;

/// Decodes twice as many hexadecimal digits as `out` has bytes, in upper or lower case.
///
/// # Errors
///
/// `kind` if the word has any other length or character.
pub(crate) fn decode_digits(word: &[u8], out: &mut [u8], kind: TextKind) -> Result<(), TextKind>
    ensures { MatchResult result
        (λ _. bytes_at (length out.old) kind word.now ≡ Ok out.new)
        (λ fault. bytes_at (length out.old) kind word.now ≡ Err fault) }
{
    match hex::decode_to_slice(word, out) {
        Ok(()) => Ok(()),
        Err(_) => Err(kind),
    }
}
