//! The command `verify --all --chart`: which data blocks of an image are good, as a map.
ghost use Rattle.std.specs.Prelude.{◌≡◌, OnOk, IfErr};
ghost use Rattle.program_io.specs.Counted.{Writes};
ghost use Rattle.runs.specs.Lines.{lines_text};
ghost use Rattle.charts.specs.declared.form.ReportForm.TheVariants.{Chart};
ghost use Rattle.verity_commands.specs.SurveyCharts.{has_kind, line_touches};
ghost use Rattle.verity_commands.specs.Surveyed.{surveyed};
ghost use Rattle.verity_commands.specs.Surveys.{FailsSurvey, FindsGood, charted_survey};

use crate::survey::{is_all_good, say_totals};
use crate::survey_object::keep_survey;
use crate::tree_fault::TreeFault;
use block_device::BlockDev;
use charts::{Marks, is_touched, say_chart};
use image_commands::ImagePair;
use program_io::{Counted, WriteFault};
use runs::{KeptLines, Kind, Line, Listing};
use std::alloc::Global;
use std::io::Write;
use tree_shape::Digest;
use tree_survey::Totals;
use verity_format::VerityTree;

/// The lines of a survey, of which a map is drawn.
#[derive(Clone, Copy)]
struct Damage<'a> {
    lines: &'a [Line],
}

impl Marks for Damage<'_> {
    ghost use Rattle.verity_commands.specs.SurveyCharts.{damage_mark};

    ghost marking = { λ damage. damage_mark damage.lines.now };

    fn mark(&self, first: u64, width: u64) -> &'static str {
        if has_kind(self.lines, Kind::Changed, first, width) {
            "x"
        } else if has_kind(self.lines, Kind::Unknown, first, width) {
            "?"
        } else {
            "."
        }
    }
}

// Whether one of `width` blocks from block `at` on is in a run of that kind.
fn has_kind(lines: &[Line], kind: Kind, at: u64, width: u64) -> bool
    ensures { result ≡ has_kind lines.now kind at width }
{
    lines
        .iter()
        .any(|line| line_touches(*line, kind, at, width))
}

// Whether the line is a run of that kind that has one of them.
fn line_touches(line: Line, kind: Kind, at: u64, width: u64) -> bool
    ensures { result ≡ line_touches kind at width line }
{
    match line {
        Line::Run(run) => run.kind.is_same(kind) && is_touched(at, width, run.first, run.count),
        Line::More => false,
        Line::Hash { .. } => false,
    }
}

/// Scans the two devices, and prints the lines, a map of the data blocks and the totals at the end.
pub(crate) fn survey_chart<'a, D: BlockDev, H: BlockDev, W: Write>(
    alloc: Global,
    image: &mut ImagePair<D, H>,
    tree: &VerityTree,
    root: &Digest,
    writer: &mut Counted<W>,
) -> Result<(), TreeFault<'a>>
    ensures ok { OnOk result (FindsGood Chart tree.now (surveyed D.state H.state image.old) (surveyed D.state H.state image.new) W.contents writer.old writer.new root.now) }
    ensures err { IfErr result (FailsSurvey Chart tree.now (surveyed D.state H.state image.old) (surveyed D.state H.state image.new) W.contents writer.old writer.new root.now) }
{
    let mut kept = KeptLines::new(alloc);
    let found = keep_survey(alloc, image, tree, root, &mut kept)?;
    say_charted(writer, kept.lines.as_slice(), tree, found.totals)?;
    if !is_all_good(found) {
        return Err(TreeFault::Damaged);
    }
    Ok(())
}

// Prints the lines, the map and the totals.
fn say_charted<W: Write>(
    writer: &mut Counted<W>,
    lines: &[Line],
    tree: &VerityTree,
    totals: Totals,
) -> Result<(), WriteFault>
    ensures { Writes W.contents writer.old writer.new (charted_survey tree.now lines.now totals) result }
{
    say_lines(writer, lines)?;
    say_chart(writer, &Damage { lines }, tree.shape.blocks())?;
    say_totals(writer, totals)
}

// Prints the lines.
fn say_lines<W: Write>(writer: &mut Counted<W>, lines: &[Line]) -> Result<(), WriteFault>
    ensures { Writes W.contents writer.old writer.new (lines_text lines.now) result }
{
    'lines: for line in lines {
        writer.tell(*line)?;
    }
    Ok(())
}
