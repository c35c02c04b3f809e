//! A map of blocks or sectors as text.
ghost use Rattle.std.specs.Prelude.{◌≡◌, ◌<◌, ◌≤◌, ℕ, List};
ghost use Rattle.program_io.specs.Counted.{Writes};
ghost use Rattle.charts.specs.Charts.{cell_text, cell_width, cells_text, chart_text, is_touched, row_end};

use program_io::{Counted, WriteFault};
use std::io::Write;

/// The greatest number of cells of a map.
const CELLS: u64 = 1024;

/// The cells of a row.
const ROW: u64 = 64;

/// What a map is drawn of.
pub trait Marks {
    /// How a cell is drawn, by its first block and how many it has.
    ghost marking: { Self → ℕ → ℕ → List ℕ };

    /// Returns how a cell of `width` blocks from number `first` on is drawn.
    fn mark(&self, first: u64, width: u64) -> &'static str
        ensures { result.now ≡ marking self.now first width };
}

/// Returns whether one of `width` blocks from number `at` on is among `count` blocks from number `first` on.
pub fn is_touched(at: u64, width: u64, first: u64, count: u64) -> bool
    ensures { result ≡ is_touched at width first count }
{
    first.saturating_sub(at) < width && at.saturating_sub(first) < count
}

/// Prints `chart N` and a map of `total` blocks: at most 16 rows of 64 cells, each of which has N blocks. N is the smallest
/// number with which 1,024 cells suffice.
///
/// # Errors
///
/// `WriteFault` if the writer failed.
#[tactic(auto, unfolding(crate::specs::Charts::chart_text))]
pub fn say_chart<W: Write, M: Marks>(
    writer: &mut Counted<W>,
    marks: &M,
    total: u64,
) -> Result<(), WriteFault>
    ensures { Writes W.contents writer.old writer.new (chart_text (M.marking marks.now) total) result }
{
    let width = cell_width(total);
    writer.print(format_args!("chart {width}\n"))?;
    say_cells(writer, marks, total, CELLS)
}

// The blocks of a cell.
fn cell_width(total: u64) -> u64
    ensures { result ≡ cell_width total }
{
    total.saturating_sub(1) / CELLS + 1
}

// Prints the first `count` cells.
#[tactic(auto, unfolding(crate::specs::Charts::cells_text))]
fn say_cells<W: Write, M: Marks>(
    writer: &mut Counted<W>,
    marks: &M,
    total: u64,
    count: u64,
) -> Result<(), WriteFault>
    requires { count ≤ 1024 }
    ensures { Writes W.contents writer.old writer.new (cells_text (M.marking marks.now) total count) result }
{
    'cells: for i in 0..count {
        say_cell(writer, marks, total, i)?;
    }
    Ok(())
}

// Prints the cell of index i, if it has a block.
#[tactic(auto, unfolding(crate::specs::Charts::cell_text), using(crate::proofs::WritingLemmas::writes_nothing))]
fn say_cell<W: Write, M: Marks>(
    writer: &mut Counted<W>,
    marks: &M,
    total: u64,
    i: u64,
) -> Result<(), WriteFault>
    requires { i < 1024 }
    ensures { Writes W.contents writer.old writer.new (cell_text (M.marking marks.now) total i) result }
{
    let width = cell_width(total);
    let first = i * width;
    if first < total {
        let mark = marks.mark(first, width);
        let end = row_end(i, total - first, width);
        writer.print(format_args!("{mark}{end}"))
    } else {
        Ok(())
    }
}

fn row_end(i: u64, left: u64, width: u64) -> &'static str
    ensures { result.now ≡ row_end i left width }
{
    if i % ROW == ROW - 1 {
        "\n"
    } else if width < left {
        ""
    } else {
        "\n"
    }
}
