//! What `scan` and `copy` report after a complete pass over a device.
ghost use Rattle.std.specs.Prelude.{◌≡◌, IfErr, OnOk};
ghost use Rattle.program_io.specs.Counted.{Writes};
ghost use Rattle.scan_commands.specs.Counting.{EndsCounts, TellsCountsBy, counts_text, has_missing};
ghost use Rattle.scan_commands.specs.Reports.{EndsObject, TellsObject};

use crate::lost_json::lost_line;
use crate::pass_counts::PassCounts;
use crate::recovering_fault::RecoveringFault;
use program_io::{Counted, WriteFault};
use stack_recovery::{Counts, KeptRuns};
use std::alloc::Global;
use std::io::Write;

/// Prints the counts if all sectors were read.
///
/// # Errors
///
/// - `Lost` with the counts if sectors are lost or unscraped.
/// - `Write` if this line or an earlier one can't be written.
pub fn tell_counts<'a, W: Write>(
    counts: PassCounts,
    writer: &mut Counted<W>,
) -> Result<(), RecoveringFault<'a>>
    ensures ok { OnOk result (TellsCountsBy W.contents writer.old writer.new counts) }
    ensures err { IfErr result (EndsCounts W.contents writer.old writer.new counts) }
{
    if writer.failed() {
        return Err(RecoveringFault::Write);
    }
    if has_missing(counts.sectors) {
        return Err(RecoveringFault::Lost(counts));
    }
    Ok(say_counts(writer, counts)?)
}

/// Returns whether sectors are lost or unscraped.
pub fn has_missing(counts: Counts) -> bool
    ensures { result ≡ has_missing counts }
{
    counts.lost > 0 || counts.untried > 0
}

/// Prints `read N lost N`, and after it `untried N` if sectors are unscraped, and `restored N` if blocks were restored.
///
/// # Errors
///
/// `WriteFault` if the writer failed.
pub fn say_counts<W: Write>(writer: &mut Counted<W>, counts: PassCounts) -> Result<(), WriteFault>
    ensures { Writes W.contents writer.old writer.new (counts_text counts) result }
{
    let PassCounts { sectors, restored } = counts;
    let Counts {
        read,
        lost,
        untried,
    } = sectors;
    if restored == 0 {
        if untried == 0 {
            return writer.print(format_args!("read {read} lost {lost}\n"));
        }
        return writer.print(format_args!("read {read} lost {lost} untried {untried}\n"));
    }
    if untried == 0 {
        return writer.print(format_args!("read {read} lost {lost} restored {restored}\n"));
    }
    writer.print(format_args!("read {read} lost {lost} untried {untried} restored {restored}\n"))
}

/// Prints one JSON object with the counts and the lost runs.
///
/// # Errors
///
/// - `NoMemory` if memory ran out for a run or for the object.
/// - `Write` if the object can't be written.
/// - `LostAsSaid` if sectors are lost or unscraped.
pub(crate) fn tell_object<'a, W: Write>(
    alloc: Global,
    kept: &KeptRuns,
    counts: PassCounts,
    writer: &mut Counted<W>,
) -> Result<(), RecoveringFault<'a>>
    ensures ok { OnOk result (TellsObject W.contents kept.now counts writer.old writer.new) }
    ensures err { IfErr result (EndsObject W.contents kept.now counts writer.old writer.new) }
{
    if kept.refused.is_some() {
        return Err(RecoveringFault::NoMemory);
    }
    let line = lost_line(alloc, kept.runs.as_slice(), counts)?;
    writer.put(line.as_bytes())?;
    if has_missing(counts.sectors) {
        return Err(RecoveringFault::LostAsSaid);
    }
    Ok(())
}
