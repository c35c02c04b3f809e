//! A map of a device's lost sectors.
ghost use Rattle.std.specs.Prelude.{◌≡◌, IfErr, OnOk};
ghost use Rattle.program_io.specs.Counted.{Writes};
ghost use Rattle.block_device.specs.Device.{capped};
ghost use Rattle.stack_recovery.specs.Recoveries.{counted_sectors};
ghost use Rattle.stack_recovery.specs.Texts.{lost_text};
ghost use Rattle.scan_commands.specs.Reports.{EndsChart, TellsChart};
ghost use Rattle.scan_commands.specs.Charts.{charted_text, is_lost, touches};

use crate::pass_counts::PassCounts;
use crate::recovering_fault::RecoveringFault;
use crate::report::tell_counts;
use charts::{Marks, is_touched, say_chart};
use program_io::{Counted, WriteFault};
use stack_recovery::{Counts, KeptRuns, Listing, LostRun};
use std::io::Write;

/// The lost runs of a device, of which a map is drawn.
#[derive(Clone, Copy)]
struct LostRuns<'a> {
    runs: &'a [LostRun],
}

impl Marks for LostRuns<'_> {
    ghost use Rattle.scan_commands.specs.Charts.{lost_mark};

    ghost marking = { λ lost. lost_mark lost.runs.now };

    fn mark(&self, first: u64, width: u64) -> &'static str {
        if is_lost(self.runs, first, width) {
            "x"
        } else {
            "."
        }
    }
}

// Whether one of `width` sectors from sector `at` on is lost.
fn is_lost(runs: &[LostRun], at: u64, width: u64) -> bool
    ensures { result ≡ is_lost runs.now at width }
{
    runs.iter().any(|run| touches(at, width, *run))
}

// Whether one of them is in the run.
fn touches(at: u64, width: u64, run: LostRun) -> bool
    ensures { result ≡ touches at width run }
{
    is_touched(at, width, run.first, run.count)
}

/// Prints a line for each lost run, a map of all sectors, and the counts if all were read.
///
/// # Errors
///
/// - `NoMemory` if memory ran out for a run.
/// - `Write` if not all can be written.
/// - `Lost` with the counts if sectors are lost or unscraped.
pub(crate) fn tell_chart<'a, W: Write>(
    kept: &KeptRuns,
    counts: PassCounts,
    writer: &mut Counted<W>,
) -> Result<(), RecoveringFault<'a>>
    ensures ok { OnOk result (TellsChart W.contents kept.now counts writer.old writer.new) }
    ensures err { IfErr result (EndsChart W.contents kept.now counts writer.old writer.new) }
{
    if kept.refused.is_some() {
        return Err(RecoveringFault::NoMemory);
    }
    say_charted(writer, kept.runs.as_slice(), counts.sectors)?;
    tell_counts(counts, writer)
}

// Prints a line for each lost run, and a map of all sectors.
fn say_charted<W: Write>(
    writer: &mut Counted<W>,
    runs: &[LostRun],
    counts: Counts,
) -> Result<(), WriteFault>
    ensures { Writes W.contents writer.old writer.new (charted_text runs.now counts) result }
{
    say_lost(writer, runs)?;
    say_chart(writer, &LostRuns { runs }, all_sectors(counts))
}

// How many sectors are counted.
fn all_sectors(counts: Counts) -> u64
    ensures { result ≡ capped (counted_sectors counts) }
{
    let missing = counts.lost.saturating_add(counts.untried);
    counts.read.saturating_add(missing)
}

// Prints a line for each run.
fn say_lost<W: Write>(writer: &mut Counted<W>, runs: &[LostRun]) -> Result<(), WriteFault>
    ensures { Writes W.contents writer.old writer.new (lost_text runs.now) result }
{
    'lines: for run in runs {
        writer.tell(*run);
    }
    if writer.failed() {
        return Err(WriteFault);
    }
    Ok(())
}
