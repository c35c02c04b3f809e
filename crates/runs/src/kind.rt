//! The kinds of data blocks, and the line of a run of one kind.
ghost use Rattle.std.specs.Prelude.{◌≡◌};
ghost use Rattle.program_io.specs.Counted.{Writes};
ghost use Rattle.runs.specs.Kinds.{kind_number, is_same};
ghost use Rattle.runs.specs.Texts.{kind_name, run_text};

use crate::run::Run;
use program_io::{Counted, WriteFault};
use std::io::Write;

/// The kind of a data block that isn't valid, or that differs between two images.
#[derive(Clone, Copy, Debug, PartialEq, Eq)]
pub enum Kind {
    /// Its path is valid but its digest is wrong, or its digests in two trees differ.
    Changed = 1,
    /// A hash block on its path fails verification.
    Unknown = 2,
    /// Only the first of two images has the block.
    Removed = 3,
    /// Only the second of two images has the block.
    Added = 4,
}

impl Kind {
    fn number(self) -> u8
        ensures { result ≡ kind_number self }
    {
        self as u8
    }

    /// Returns the word that its line begins with.
    pub fn name(self) -> &'static str
        ensures { result.now ≡ kind_name self }
    {
        match self {
            Kind::Changed => "changed",
            Kind::Unknown => "unknown",
            Kind::Removed => "removed",
            Kind::Added => "added",
        }
    }

    /// Returns whether both kinds are the same.
    pub fn is_same(self, other: Kind) -> bool
        ensures { result ≡ is_same self other }
    {
        self.number() == other.number()
    }
}

/// Writes `KIND FIRST COUNT`.
#[tactic(auto, unfolding(crate::specs::Texts::run_text))]
pub(crate) fn say_run<W: Write>(writer: &mut Counted<W>, run: Run<Kind>) -> Result<(), WriteFault>
    ensures { Writes W.contents writer.old writer.new (run_text run) result }
{
    let Run { first, count, kind } = run;
    writer.put(kind.name().as_bytes())?;
    writer.print(format_args!(" {first} {count}\n"))
}
