//! The lines that a scan of trees reports.
ghost use Rattle.std.specs.Prelude.{◌≡◌};
ghost use Rattle.program_io.specs.Counted.{Writes};
ghost use Rattle.runs.specs.Lines.{is_more, listing_line};
ghost use Rattle.runs.specs.Texts.{hash_text, more_text};

use crate::kind::{Kind, say_run};
use crate::run::Run;
use program_io::{Counted, WriteFault};
use std::io::Write;

/// A line that a scan of trees reports.
#[derive(Clone, Copy, Debug, PartialEq, Eq)]
pub enum Line {
    /// A run of data blocks.
    Run(Run<Kind>),
    /// There are more runs than the limit.
    More,
    /// A hash block that fails verification: its level, numbered from 0 above the data blocks, and its index within
    /// the level.
    Hash { level: u32, number: u64 },
}

impl Line {
    /// Returns whether the line states that there are more runs.
    pub fn is_more(self) -> bool
        ensures { result ≡ is_more self }
    {
        match self {
            Line::More => true,
            Line::Run(_) => false,
            Line::Hash { .. } => false,
        }
    }
}

/// Writes the line.
pub(crate) fn say_line<W: Write>(writer: &mut Counted<W>, line: Line) -> Result<(), WriteFault>
    ensures { Writes W.contents writer.old writer.new (listing_line line) result }
{
    match line {
        Line::Run(run) => say_run(writer, run),
        Line::More => say_more(writer),
        Line::Hash { level, number } => say_hash(writer, level, number),
    }
}

#[tactic(auto, unfolding(crate::specs::Texts::more_text))]
fn say_more<W: Write>(writer: &mut Counted<W>) -> Result<(), WriteFault>
    ensures { Writes W.contents writer.old writer.new more_text result }
{
    writer.put(b"more\n")
}

// Writes `hash LEVEL INDEX`.
#[tactic(auto, unfolding(crate::specs::Texts::hash_text))]
fn say_hash<W: Write>(writer: &mut Counted<W>, level: u32, number: u64) -> Result<(), WriteFault>
    ensures { Writes W.contents writer.old writer.new (hash_text level number) result }
{
    writer.print(format_args!("hash {level} {number}\n"))
}
