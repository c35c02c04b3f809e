//! Which hash blocks of the second image are invalid, and which data blocks of two images differ: `diff --all`.
ghost use Rattle.std.specs.Prelude.{◌≡◌, ◌≤◌, false, OnOk, IfErr, IfOk};
ghost use Rattle.verity_format.specs.Image.{tree_sectors};
ghost use Rattle.tree_difference.specs.Differences.{seen_world};
ghost use Rattle.tree_survey.specs.Failing.{IsReadOver};
ghost use Rattle.tree_survey.specs.Hashes.{TellsTree};
ghost use Rattle.tree_survey.specs.Passes.{tree_under};
ghost use Rattle.verity_commands.specs.CheckedDiffs.{FailsCheck, FailsToCheckDevice, FailsToSay, FindsWhole, FitsSecond, IsCheckedCause, IsCheckedDifference, IsFoundEnd, IsWholeAndSame, SaysFound, check_fault, second_fault};

use crate::checked_object::say_object;
use crate::diff::{DiffForm, is_unchanged, say_totals};
use crate::paths::TwoHashes;
use crate::tree_fault::TreeFault;
use block_device::BlockDev;
use program_io::Counted;
use runs::Listing;
use std::alloc::Global;
use std::io::Write;
use tree_difference::{DifferenceFault, Totals, TreePair, Which, compare_trees};
use tree_shape::Digest;
use tree_survey::{SurveyFault, survey_hashes};
use verity_format::{VerifyFault, VerityTree};

/// How many data blocks differ, and whether each hash block of the second tree is valid.
#[derive(Clone, Copy, Debug, PartialEq, Eq)]
pub struct CheckedTotals {
    pub totals: Totals,
    pub whole_tree: bool,
}

/// Checks the hash blocks of the second tree, compares both, and prints what is found. The hash blocks come first, since the
/// comparison ends at an invalid one that it reads.
///
/// # Errors
///
/// `Damaged` if a hash block is invalid, else `Differs` if data blocks differ; or the fault of the comparison.
pub(crate) fn check<'a, D: BlockDev, W: Write>(
    alloc: Global,
    two: &mut TwoHashes<D>,
    pair: &TreePair,
    form: DiffForm,
    writer: &mut Counted<W>,
) -> Result<(), TreeFault<'a>>
    requires { FitsSecond D.state two.old pair.now }
    ensures ok { OnOk result (FindsWhole D.state two.old two.new W.contents writer.old writer.new pair.now form) }
    ensures err { IfErr result (FailsCheck D.state two.old two.new W.contents writer.old writer.new pair.now form) }
{
    let found = say_checked(alloc, two, pair, form, writer)?;
    end_of(found)
}

// Prints what is found, as an object or as lines.
fn say_checked<'a, D: BlockDev, W: Write>(
    alloc: Global,
    two: &mut TwoHashes<D>,
    pair: &TreePair,
    form: DiffForm,
    writer: &mut Counted<W>,
) -> Result<CheckedTotals, TreeFault<'a>>
    requires { FitsSecond D.state two.old pair.now }
    ensures ok { IfOk result (SaysFound form.json D.state two.old two.new W.contents writer.old writer.new pair.now form.most) }
    ensures err { IfErr result (FailsToSay form.json D.state two.old two.new W.contents writer.old writer.new pair.now form.most) }
{
    let DiffForm { most, json, all: _ } = form;
    if json {
        return say_object(alloc, two, pair, most, writer);
    }
    say_lines(alloc, two, pair, most, writer)
}

fn say_lines<'a, D: BlockDev, W: Write>(
    alloc: Global,
    two: &mut TwoHashes<D>,
    pair: &TreePair,
    most: Option<u64>,
    writer: &mut Counted<W>,
) -> Result<CheckedTotals, TreeFault<'a>>
    requires { FitsSecond D.state two.old pair.now }
    ensures ok { IfOk result (SaysFound false D.state two.old two.new W.contents writer.old writer.new pair.now most) }
    ensures err { IfErr result (FailsToSay false D.state two.old two.new W.contents writer.old writer.new pair.now most) }
{
    let first = &mut two.first.device;
    let second = &mut two.second.device;
    let found = compare_checked(alloc, first, second, pair, most, writer)?;
    say_totals(writer, found.totals)?;
    Ok(found)
}

/// Checks the hash blocks of the second tree, and compares both.
pub(crate) fn compare_checked<D: BlockDev, E: BlockDev, L: Listing>(
    alloc: Global,
    first: &mut D,
    second: &mut E,
    pair: &TreePair,
    most: Option<u64>,
    listing: &mut L,
) -> Result<CheckedTotals, DifferenceFault>
    requires { tree_sectors pair.now.second.shape ≤ (E.state second.old).size }
    ensures ok { IfOk result (IsCheckedDifference (seen_world D.state E.state L.told first.old second.old first.new second.new listing.old listing.new) pair.now most) }
    ensures err { IfErr result (IsCheckedCause (seen_world D.state E.state L.told first.old second.old first.new second.new listing.old listing.new) pair.now most (L.failed listing.new)) }
{
    let whole_tree = check_second(alloc, second, &pair.second, &pair.roots.second, listing)?;
    let totals = compare_trees(alloc, first, second, pair, most, listing)?;
    Ok(CheckedTotals { totals, whole_tree })
}

// Checks the hash blocks of the second tree, and returns whether all are valid.
fn check_second<H: BlockDev, L: Listing>(
    alloc: Global,
    device: &mut H,
    tree: &VerityTree,
    root: &Digest,
    listing: &mut L,
) -> Result<bool, DifferenceFault>
    requires { tree_sectors tree.now.shape ≤ (H.state device.old).size }
    ensures over { IsReadOver (H.state device.old) (H.state device.new) }
    ensures ok { IfOk result (TellsTree H.state L.told (tree_under tree.now root.now) device.old device.new listing.old listing.new) }
    ensures err { IfErr result (FailsToCheckDevice H.state device.old device.new (L.failed listing.new)) }
{
    match survey_hashes(alloc, device, tree, root, listing) {
        Ok(whole) => Ok(whole),
        Err(fault) => Err(check_fault(fault)),
    }
}

// With which fault the comparison ends if the check does.
fn check_fault(fault: SurveyFault) -> DifferenceFault
    ensures { result ≡ check_fault fault }
{
    match fault {
        SurveyFault::Image(image) => second_fault(image),
        SurveyFault::Write => DifferenceFault::Write,
    }
}

// With which one if the second image has this fault.
fn second_fault(fault: VerifyFault) -> DifferenceFault
    ensures { result ≡ second_fault fault }
{
    match fault {
        VerifyFault::Super(field) => {
            DifferenceFault::Image(Which::Second, VerifyFault::Super(field))
        }
        VerifyFault::TooSmall => DifferenceFault::Image(Which::Second, VerifyFault::TooSmall),
        VerifyFault::Device => DifferenceFault::Image(Which::Second, VerifyFault::Device),
        VerifyFault::NoMemory => DifferenceFault::NoMemory,
    }
}

// How a comparison ends that found this.
fn end_of<'a>(found: CheckedTotals) -> Result<(), TreeFault<'a>>
    ensures ok { OnOk result (IsWholeAndSame found) }
    ensures err { IfErr result (IsFoundEnd found) }
{
    if !found.whole_tree {
        return Err(TreeFault::Damaged);
    }
    if !is_unchanged(found.totals) {
        return Err(TreeFault::Differs);
    }
    Ok(())
}
