//! Why arguments are no command.
ghost use Rattle.std.specs.Prelude.{◌≡◌};
ghost use Rattle.command_line.specs.declared.fault.WordsFault.TheVariants as words_fault;

use crate::misuse::Misuse;
use allocation::OutOfMemory;
use thiserror::Error;

/// Why arguments are no command.
#[derive(Clone, Copy, Debug, PartialEq, Eq, Error)]
pub enum WordsFault<'a> {
    /// An argument is misused.
    #[error("Usage")]
    Usage(Misuse<'a>),
    /// An allocation was refused.
    #[error("NoMemory")]
    NoMemory,
}

impl<'a> From<Misuse<'a>> for WordsFault<'a> {
    ghost from_gives = { λ misuse fault. fault ≡ words_fault.Usage misuse };

    fn from(misuse: Misuse<'a>) -> Self {
        WordsFault::Usage(misuse)
    }
}

impl From<OutOfMemory> for WordsFault<'_> {
    ghost from_gives = { λ _ fault. fault ≡ words_fault.NoMemory };

    fn from(_error: OutOfMemory) -> Self {
        WordsFault::NoMemory
    }
}
