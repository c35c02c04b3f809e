//! Why a line was rejected.
ghost use Rattle.std.specs.Prelude.{◌≡◌};
ghost use Rattle.table_text.specs.declared.line_fault.LineFault.TheVariants as line_fault;

use allocation::OutOfMemory;
use dm_table::TextKind;

/// Why a line was rejected, without the position.
#[derive(Clone, Copy, Debug, PartialEq, Eq)]
pub(crate) enum LineFault {
    Kind(TextKind),
    NoMemory,
}

impl From<OutOfMemory> for LineFault {
    ghost from_gives = { λ _ fault. fault ≡ line_fault.NoMemory };

    fn from(_error: OutOfMemory) -> LineFault {
        LineFault::NoMemory
    }
}

impl From<TextKind> for LineFault {
    ghost from_gives = { λ kind fault. fault ≡ line_fault.Kind kind };

    fn from(kind: TextKind) -> LineFault {
        LineFault::Kind(kind)
    }
}
