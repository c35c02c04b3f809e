//! The command `diff --all --json`: the invalid hash blocks of the second tree, and what two trees differ in, as one JSON
//! object.
ghost use Rattle.std.specs.Prelude.{◌≡◌, true, string_bytes, IfOk, IfErr};
ghost use Rattle.program_io.specs.JsonLines.{json_line};
ghost use Rattle.serde_json.specs.View.{view};
ghost use Rattle.tree_difference.specs.declared.fault.DifferenceFault.TheVariants as difference_fault;
ghost use Rattle.verity_commands.specs.CheckedDiffs.{FailsToKeepCheck, FailsToSay, FitsSecond, IsCheckedDifference, SaysFound, kept_world};
ghost use Rattle.verity_commands.specs.Objects.{checked_json};

use crate::checked_diff::{CheckedTotals, compare_checked};
use crate::diff_object::unkept;
use crate::paths::TwoHashes;
use crate::tree_fault::TreeFault;
use block_device::BlockDev;
use program_io::{Counted, line_of};
use runs::{KeptLines, Line, hashes_value, runs_value, says_more};
use serde_json::{Value, json};
use std::alloc::{AllocError, Global};
use std::io::Write;
use tree_difference::{DifferenceFault, Totals, TreePair};

/// Checks the second tree and compares both, and prints an object at the end.
pub(crate) fn say_object<'a, D: BlockDev, W: Write>(
    alloc: Global,
    two: &mut TwoHashes<D>,
    pair: &TreePair,
    most: Option<u64>,
    writer: &mut Counted<W>,
) -> Result<CheckedTotals, TreeFault<'a>>
    requires { FitsSecond D.state two.old pair.now }
    ensures ok { IfOk result (SaysFound true D.state two.old two.new W.contents writer.old writer.new pair.now most) }
    ensures err { IfErr result (FailsToSay true D.state two.old two.new W.contents writer.old writer.new pair.now most) }
{
    let mut kept = KeptLines::new(alloc);
    let found = keep_checked(alloc, two, pair, most, &mut kept)?;
    let line = checked_line(alloc, kept.lines.as_slice(), found.totals)?;
    writer.put(line.as_bytes())?;
    Ok(found)
}

// If a line isn't kept, memory ran out.
#[tactic(auto, using(crate::proofs::CheckedLemmas::kept_check))]
fn keep_checked<D: BlockDev>(
    alloc: Global,
    two: &mut TwoHashes<D>,
    pair: &TreePair,
    most: Option<u64>,
    kept: &mut KeptLines,
) -> Result<CheckedTotals, DifferenceFault>
    requires { FitsSecond D.state two.old pair.now }
    ensures ok { IfOk result (IsCheckedDifference (kept_world D.state two.old two.new kept.old kept.new) pair.now most) }
    ensures err { IfErr result (FailsToKeepCheck D.state two.old two.new pair.now most) }
{
    let first = &mut two.first.device;
    let second = &mut two.second.device;
    match compare_checked(alloc, first, second, pair, most, kept) {
        Ok(found) => Ok(found),
        Err(fault) => Err(unkept(fault)),
    }
}

#[tactic(auto, using(crate::proofs::ObjectLemmas::plain_checked))]
fn checked_line(alloc: Global, lines: &[Line], totals: Totals) -> Result<String, DifferenceFault>
    ensures ok { IfOk result (λ line. string_bytes line ≡ json_line (checked_json lines.now totals)) }
    ensures err { IfErr result (λ fault. fault ≡ difference_fault.NoMemory) }
{
    let value = match checked_value(alloc, lines, totals) {
        Ok(value) => value,
        Err(_) => return Err(DifferenceFault::NoMemory),
    };
    line_of(alloc, &value).map_err(|_| DifferenceFault::NoMemory)
}

// The members in the order of their keys.
fn checked_value(alloc: Global, lines: &[Line], totals: Totals) -> Result<Value, AllocError>
    ensures { IfOk result (λ value. view value ≡ checked_json lines.now totals) }
{
    let Totals {
        same,
        changed,
        removed,
        added,
    } = totals;
    let hash_blocks = hashes_value(alloc, lines)?;
    let runs = runs_value(alloc, lines)?;
    json!(in alloc; {
        "added": added,
        "changed": changed,
        "hash_blocks": hash_blocks,
        "more": says_more(lines),
        "removed": removed,
        "runs": runs,
        "same": same
    })
}
