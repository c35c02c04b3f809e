//! The two trees of `diff`, found before they are compared.
ghost use Rattle.std.specs.Prelude.{◌≡◌, IfErr, IfOk};
ghost use Rattle.verity_format.specs.Blocks.{IsOnlyRead};
ghost use Rattle.verity_commands.specs.TreePairs.{FindsNoTrees, FindsTrees, IsTreeIn, IsTreeMissing, misplaced, pair_fault};

use crate::tree_fault::TreeFault;
use block_device::BlockDev;
use image_commands::{NoSource, SoughtTree, TreeSource, may_seek, seek_tree};
use image_pin::NoTree;
use tree_difference::{DifferenceFault, Roots, TreePair, Which, check_alike};
use verity_format::{VerifyFault, VerityTree, tree_sectors};

/// The sectors of 512 bytes of their files at which two hash images begin.
#[derive(Clone, Copy, Debug, PartialEq, Eq)]
pub struct TreeStarts {
    pub first: u64,
    pub second: u64,
}

/// Two trees that are sought.
#[derive(Clone, Copy)]
pub struct SoughtTrees {
    pub first: SoughtTree,
    pub second: SoughtTree,
}

/// Returns the first of the two trees that can't begin at its sector, as far as that is known before a file is opened.
pub(crate) fn misplaced(starts: &TreeStarts, sought: &SoughtTrees) -> Option<Which>
    ensures { result ≡ misplaced starts.now sought.now }
{
    if !may_seek(&sought.first.source, starts.first) {
        return Some(Which::First);
    }
    if !may_seek(&sought.second.source, starts.second) {
        return Some(Which::Second);
    }
    None
}

/// Returns the trees of two hash images that begin at those sectors, which can be compared. Each superblock is read once, and no
/// other block.
///
/// # Errors
///
/// - `NoShape` if the options state no valid shape.
/// - `Trees` with `Image` if a hash image has no superblock, is too small for its tree, or failed.
/// - `Trees` with `Unaligned` if no hash block begins at the sector of a superblock.
/// - `Trees` with `Unpinned` if a superblock differs from its pin.
/// - `Trees` with `Unlike` if the trees are incomparable.
pub(crate) fn find_trees<'a, D: BlockDev, E: BlockDev>(
    first: &mut D,
    second: &mut E,
    starts: &TreeStarts,
    sought: &SoughtTrees,
) -> Result<TreePair, TreeFault<'a>>
    ensures ok { IfOk result (FindsTrees D.state E.state first.old second.old first.new second.new starts.now sought.now) }
    ensures err { IfErr result (FindsNoTrees D.state E.state first.old second.old first.new second.new starts.now sought.now) }
{
    let one = tree_in(first, starts.first, Which::First, &sought.first.source)?;
    let two = tree_in(second, starts.second, Which::Second, &sought.second.source)?;
    match check_alike(&one, &two) {
        Some(field) => Err(TreeFault::Trees(DifferenceFault::Unlike(field))),
        None => Ok(TreePair {
            first: one,
            second: two,
            roots: Roots {
                first: sought.first.root,
                second: sought.second.root,
            },
        }),
    }
}

// Returns the tree of that source, of a hash image that begins at sector `first` of its file. No data are open, so options state
// how many data blocks the tree covers.
fn tree_in<'a, H: BlockDev>(
    device: &mut H,
    first: u64,
    which: Which,
    source: &TreeSource,
) -> Result<VerityTree, TreeFault<'a>>
    ensures read { IsOnlyRead (H.state device.old) (H.state device.new) }
    ensures ok { IfOk result (IsTreeIn (H.state device.old) (H.state device.new) first source.now) }
    ensures err { IfErr result (IsTreeMissing (H.state device.old) (H.state device.new) first source.now which) }
{
    let tree = match seek_tree(source, 0, device, first) {
        Ok(tree) => tree,
        Err(fault) => return Err(pair_fault(which, fault)),
    };
    if device.sectors() < tree_sectors(&tree.shape) {
        return Err(TreeFault::Trees(DifferenceFault::Image(which, VerifyFault::TooSmall)));
    }
    Ok(tree)
}

// With which fault a comparison ends if that image has no tree.
fn pair_fault<'a>(which: Which, fault: NoSource) -> TreeFault<'a>
    ensures { result ≡ pair_fault which fault }
{
    match fault {
        NoSource::Stored(NoTree::Unread(fault)) => {
            TreeFault::Trees(DifferenceFault::Image(which, fault))
        }
        NoSource::Stored(NoTree::Unaligned) => TreeFault::Trees(DifferenceFault::Unaligned(which)),
        NoSource::Stored(NoTree::Unpinned(mismatch)) => {
            TreeFault::Trees(DifferenceFault::Unpinned(which, mismatch))
        }
        NoSource::Shape => TreeFault::NoShape,
    }
}
