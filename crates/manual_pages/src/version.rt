//! Which program this is.
ghost use Rattle.program_io.specs.Counted.{Writes};
ghost use Rattle.manual_pages.specs.Versions.{version_text};

use program_io::{Counted, WriteFault};
use std::io::Write;

/// Prints the program's name and the logic of the prover that proved it. `scripts/lib/compile.py`, which runs no proofs, compiles
/// another text in its place.
///
/// # Errors
///
/// `WriteFault` if the writer failed.
#[tactic(auto, unfolding(crate::specs::Versions::version_text))]
pub fn print_version<W: Write>(writer: &mut Counted<W>) -> Result<(), WriteFault>
    ensures { Writes W.contents writer.old writer.new version_text result }
{
    writer.put(b"dmstack 1, proved with rattle logic dac8208d650f15bf\n")
}
