//! The command `diff --json`: what two trees differ in, as one JSON object.
ghost use Rattle.std.specs.Prelude.{◌≡◌, Some, true, string_bytes, IfOk, IfErr, OnOk};
ghost use Rattle.program_io.specs.JsonLines.{json_line};
ghost use Rattle.serde_json.specs.View.{view};
ghost use Rattle.tree_difference.specs.declared.fault.DifferenceFault.TheVariants as difference_fault;
ghost use Rattle.tree_difference.specs.Differences.{IsDifference};
ghost use Rattle.verity_commands.specs.Diffs.{FailsDiff, FailsToListDiff, FindsSame, listed_diff, unkept_difference};
ghost use Rattle.verity_commands.specs.Objects.{difference_json};

use crate::diff::is_unchanged;
use crate::paths::TwoHashes;
use crate::tree_fault::TreeFault;
use block_device::BlockDev;
use program_io::{Counted, line_of};
use runs::{KeptLines, Line, runs_value, says_more};
use serde_json::{Value, json};
use std::alloc::{AllocError, Global};
use std::io::Write;
use tree_difference::{DifferenceFault, Totals, TreePair, compare_trees};

/// Compares the trees of the two hash images, and prints an object at the end.
pub(crate) fn diff_object<'a, D: BlockDev, W: Write>(
    alloc: Global,
    two: &mut TwoHashes<D>,
    pair: &TreePair,
    most: Option<u64>,
    writer: &mut Counted<W>,
) -> Result<(), TreeFault<'a>>
    ensures ok { OnOk result (FindsSame true D.state two.old two.new W.contents writer.old writer.new pair.now most) }
    ensures err { IfErr result (FailsDiff true D.state two.old two.new W.contents writer.old writer.new pair.now most) }
{
    let mut kept = KeptLines::new(alloc);
    let totals = keep_difference(alloc, two, pair, most, &mut kept)?;
    let line = difference_line(alloc, kept.lines.as_slice(), totals)?;
    writer.put(line.as_bytes())?;
    if !is_unchanged(totals) {
        return Err(TreeFault::Differs);
    }
    Ok(())
}

// If a line isn't kept, memory ran out.
fn keep_difference<D: BlockDev>(
    alloc: Global,
    two: &mut TwoHashes<D>,
    pair: &TreePair,
    most: Option<u64>,
    kept: &mut KeptLines,
) -> Result<Totals, DifferenceFault>
    ensures ok { IfOk result (IsDifference (listed_diff D.state two.old two.new kept.old kept.new) pair.now most) }
    ensures err { IfErr result (FailsToListDiff D.state two.old two.new pair.now) }
{
    let first = &mut two.first.device;
    let second = &mut two.second.device;
    match compare_trees(alloc, first, second, pair, most, kept) {
        Ok(totals) => Ok(totals),
        Err(fault) => Err(unkept(fault)),
    }
}

/// With which fault a comparison ends if lines are kept in memory: a line isn't kept only if memory ran out.
pub(crate) fn unkept(fault: DifferenceFault) -> DifferenceFault
    ensures { result ≡ unkept_difference fault }
{
    match fault {
        DifferenceFault::Write => DifferenceFault::NoMemory,
        DifferenceFault::Image(which, image) => DifferenceFault::Image(which, image),
        DifferenceFault::Unaligned(which) => DifferenceFault::Unaligned(which),
        DifferenceFault::Unpinned(which, mismatch) => DifferenceFault::Unpinned(which, mismatch),
        DifferenceFault::Unlike(unlike) => DifferenceFault::Unlike(unlike),
        DifferenceFault::Hash(which, level, index) => DifferenceFault::Hash(which, level, index),
        DifferenceFault::NoMemory => DifferenceFault::NoMemory,
    }
}

#[tactic(auto, using(crate::proofs::ObjectLemmas::plain_difference))]
fn difference_line(alloc: Global, lines: &[Line], totals: Totals) -> Result<String, DifferenceFault>
    ensures ok { IfOk result (λ line. string_bytes line ≡ json_line (difference_json lines.now totals)) }
    ensures err { IfErr result (λ fault. fault ≡ difference_fault.NoMemory) }
{
    let value = match difference_value(alloc, lines, totals) {
        Ok(value) => value,
        Err(_) => return Err(DifferenceFault::NoMemory),
    };
    line_of(alloc, &value).map_err(|_| DifferenceFault::NoMemory)
}

// The members in the order of their keys.
fn difference_value(alloc: Global, lines: &[Line], totals: Totals) -> Result<Value, AllocError>
    ensures { IfOk result (λ value. view value ≡ difference_json lines.now totals) }
{
    let Totals {
        same,
        changed,
        removed,
        added,
    } = totals;
    let runs = runs_value(alloc, lines)?;
    json!(in alloc; {
        "added": added,
        "changed": changed,
        "more": says_more(lines),
        "removed": removed,
        "runs": runs,
        "same": same
    })
}
