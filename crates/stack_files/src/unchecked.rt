//! What isn't checked of a configuration, printed among the errors.
ghost use Rattle.std.specs.Prelude.{◌≡◌, true};
ghost use Rattle.stack_files.specs.Unchecked.{unchecked_text};
ghost use Rattle.stack_files.specs.Warnings.{IsNoted, notes_of};

use crate::warning::say_if;
use linux_rules::has_signature;
use program_io::Counted;
use stack_config::Config;
use std::io::Write;

/// Prints a warning among the errors if a line names the key that holds the signature of its root hash, since no signature is
/// checked. A failure of the errors' writer stays known and ends nothing.
pub fn note_unchecked<E: Write>(errors: &mut Counted<E>, config: &Config)
    ensures noted { IsNoted (notes_of E.contents errors.old errors.new) (unchecked_text config.now) }
    ensures failed { errors.old.failed ≡ true → errors.new.failed ≡ true }
{
    let _said = say_if(
        errors,
        has_signature(config),
        b"no signature of a root hash is checked",
    );
}
