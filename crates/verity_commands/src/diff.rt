//! Which data blocks of two images differ, by their hash trees, as lines and totals.
ghost use Rattle.std.specs.Prelude.{◌≡◌, true, false, OnOk, IfErr};
ghost use Rattle.program_io.specs.Counted.{Writes};
ghost use Rattle.verity_commands.specs.Diffs.{FailsDiff, FindsSame, is_unchanged, difference_totals};

use crate::diff_object::diff_object;
use crate::paths::TwoHashes;
use crate::tree_fault::TreeFault;
use block_device::BlockDev;
use program_io::{Counted, WriteFault};
use std::alloc::Global;
use std::io::Write;
use tree_difference::{Totals, TreePair, compare_trees};

/// How many runs are printed at most, whether one JSON object is printed and no lines, and whether each hash block of the second
/// tree is checked before the comparison.
#[derive(Clone, Copy, Debug, PartialEq, Eq)]
pub struct DiffForm {
    pub most: Option<u64>,
    pub json: bool,
    pub all: bool,
}

/// Compares the trees of the two hash images.
///
/// # Errors
///
/// `Differs` if data blocks differ, or the fault of the comparison.
pub(crate) fn diff<'a, D: BlockDev, W: Write>(
    alloc: Global,
    two: &mut TwoHashes<D>,
    pair: &TreePair,
    form: DiffForm,
    writer: &mut Counted<W>,
) -> Result<(), TreeFault<'a>>
    ensures ok { OnOk result (FindsSame form.json D.state two.old two.new W.contents writer.old writer.new pair.now form.most) }
    ensures err { IfErr result (FailsDiff form.json D.state two.old two.new W.contents writer.old writer.new pair.now form.most) }
{
    let DiffForm { most, json, all: _ } = form;
    if json {
        return diff_object(alloc, two, pair, most, writer);
    }
    diff_lines(alloc, two, pair, most, writer)
}

fn diff_lines<'a, D: BlockDev, W: Write>(
    alloc: Global,
    two: &mut TwoHashes<D>,
    pair: &TreePair,
    most: Option<u64>,
    writer: &mut Counted<W>,
) -> Result<(), TreeFault<'a>>
    ensures ok { OnOk result (FindsSame false D.state two.old two.new W.contents writer.old writer.new pair.now most) }
    ensures err { IfErr result (FailsDiff false D.state two.old two.new W.contents writer.old writer.new pair.now most) }
{
    let first = &mut two.first.device;
    let second = &mut two.second.device;
    let totals = compare_trees(alloc, first, second, pair, most, writer)?;
    say_totals(writer, totals)?;
    if !is_unchanged(totals) {
        return Err(TreeFault::Differs);
    }
    Ok(())
}

/// Whether no block is changed, removed or added.
pub(crate) fn is_unchanged(totals: Totals) -> bool
    ensures { result ≡ is_unchanged totals }
{
    totals.changed == 0 && totals.removed == 0 && totals.added == 0
}

/// Prints how many data blocks differ: `same N changed N removed N added N`.
#[tactic(auto, unfolding(crate::specs::Diffs::difference_totals))]
pub(crate) fn say_totals<W: Write>(
    writer: &mut Counted<W>,
    totals: Totals,
) -> Result<(), WriteFault>
    ensures { Writes W.contents writer.old writer.new (difference_totals totals) result }
{
    let Totals {
        same,
        changed,
        removed,
        added,
    } = totals;
    writer.print(format_args!("same {same} changed {changed} "))?;
    writer.print(format_args!("removed {removed} added {added}\n"))
}
