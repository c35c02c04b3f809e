//! The receivers of lines: a writer, or a list in memory.
ghost use Rattle.std.specs.Prelude.{◌≡◌, ◌≤◌, [], ℕ, Bool, List, Option};
ghost use Rattle.allocation.specs.Asked.{refused_size};
ghost use Rattle.runs.specs.Lines.{listing_line};
ghost use Rattle.runs.specs.Listings.{Tells};

use crate::line::{Line, say_line};
use allocation::{OutOfMemory, push};
use program_io::{Counted, WriteFault};
use std::alloc::Global;
use std::io::Write;

/// A receiver of lines.
pub trait Listing {
    /// The text of the lines received, if it is known.
    ghost told: { Self → Option (List ℕ) };

    /// Whether a line wasn't received.
    ghost failed: { Self → Bool };

    /// Reports a line.
    ///
    /// # Errors
    ///
    /// `WriteFault` if the line can't be received, which is recorded.
    fn tell(&mut self, line: Line) -> Result<(), WriteFault>
        ensures { Tells told failed self.old self.new (listing_line line) result };
}

impl<W: Write> Listing for Counted<W> {
    ghost told = { λ writer. W.contents writer.inner };

    ghost failed = { λ writer. writer.failed };

    fn tell(&mut self, line: Line) -> Result<(), WriteFault> {
        say_line(self, line)
    }
}

/// Lines in memory, and the allocation that failed if a line was lost: each is of room for one line.
#[derive(Drop)]
pub struct KeptLines {
    pub lines: Vec<Line>,
    pub refused: Option<OutOfMemory>,
    pub ghost few: { refused_size refused ≤ 1 },
}

impl KeptLines {
    /// Returns an empty list of lines.
    pub fn new(alloc: Global) -> KeptLines
        ensures lines { result.lines.items ≡ [] }
    {
        KeptLines {
            lines: Vec::new(alloc),
            refused: None,
        }
    }
}

impl Listing for KeptLines {
    ghost use Rattle.std.specs.Prelude.{Some, is_some};
    ghost use Rattle.runs.specs.Lines.{lines_text};

    ghost told = { λ kept. Some (lines_text kept.lines.items) };

    ghost failed = { λ kept. is_some kept.refused };

    #[tactic(auto, using(crate::proofs::KeptLemmas::lines_text_last))]
    fn tell(&mut self, line: Line) -> Result<(), WriteFault> {
        match push(&mut self.lines, line) {
            Ok(()) => Ok(()),
            Err(refused) => {
                self.refused = Some(refused);
                Err(WriteFault)
            }
        }
    }
}
