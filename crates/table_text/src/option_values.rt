//! The values of the options of a `verity` line.
ghost use Rattle.std.specs.Prelude.{◌≡◌, Ok, Err, MatchResult};
ghost use Rattle.dm_table.specs.ValuedOptions.{option_value};

use crate::cut::Words;
use crate::option_words::value_of;
use dm_table::TextKind;

/// Returns the value of an option that has one. The words begin with an option.
///
/// # Errors
///
/// `Option` if the line doesn't have the option, or ends with it.
pub(crate) fn option_value<'a>(words: &Words<'a>, name: &[u8]) -> Result<&'a [u8], TextKind>
    ensures { MatchResult result
        (λ value. option_value name.now words.now ≡ Ok value.now)
        (λ kind. option_value name.now words.now ≡ Err kind) }
{
    value_of(
        words.again(),
        name,
        &[
            "root_hash_sig_key_desc",
            "use_fec_from_device",
            "fec_roots",
            "fec_blocks",
            "fec_start",
        ],
    )
}
