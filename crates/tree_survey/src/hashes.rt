//! Checks the hash blocks of a tree: each against the hash stored in its parent, and its unused part against zeros.
ghost use Rattle.std.specs.Prelude.{◌≡◌, ◌&&◌, ◌<◌, ◌≤◌, true, IfErr, IfOk, OnErr};
ghost use Rattle.tree_shape.specs.Shape.{levels};
ghost use Rattle.verity_format.specs.Image.{tree_sectors};
ghost use Rattle.runs.specs.Listings.{Tells};
ghost use Rattle.tree_survey.specs.Causes.{EndsHashes};
ghost use Rattle.tree_survey.specs.Failing.{IsReadOver};
ghost use Rattle.tree_survey.specs.Hashes.{CanCompareHashes, IsAbove, IsCompared, TellsBad, TellsTree, hash_line_at, tree_of_path};
ghost use Rattle.tree_survey.specs.Passes.{tree_under};

use crate::fault::SurveyFault;
use crate::path::load;
use block_device::BlockDev;
use program_io::WriteFault;
use runs::{Line, Listing};
use std::alloc::Global;
use tree_path::{TreePath, span};
use tree_shape::{Digest, Shape};
use verity_format::VerityTree;

/// Checks each hash block of a tree, and returns whether all are valid. It reports a line `hash LEVEL INDEX` for each block
/// that is invalid or can't be checked, the top level first.
///
/// A hash block is valid if its digest is stored in its parent (for the top block: is the root hash), and the block is zero
/// after its last used entry. A block can't be checked if it or its parent can't be read.
///
/// # Errors
///
/// - `NoMemory` if an allocation was refused; nothing was read.
/// - `Write` if a line can't be reported.
pub fn survey_hashes<H: BlockDev, L: Listing>(
    alloc: Global,
    device: &mut H,
    tree: &VerityTree,
    root: &Digest,
    listing: &mut L,
) -> Result<bool, SurveyFault>
    requires { tree_sectors tree.now.shape ≤ (H.state device.old).size }
    ensures over { IsReadOver (H.state device.old) (H.state device.new) }
    ensures ok { IfOk result (TellsTree H.state L.told (tree_under tree.now root.now) device.old device.new listing.old listing.new) }
    ensures err { IfErr result (EndsHashes H.state device.old device.new (L.failed listing.new)) }
{
    let _blocks = tree.shape.blocks();
    let mut path = TreePath::new(alloc, tree.shape, tree.salt, *root)?;
    let whole = say_hashes(&mut path, &tree.shape, device, listing)?;
    Ok(whole)
}

/// Reports each hash block that isn't valid or can't be checked, in the order of the blocks on the device, the top level first.
/// Returns whether there was none.
///
/// A hash block is valid if its digest is stored in its parent and the block is zero after its last used entry. A block can't
/// be checked if it or its parent can't be read.
pub(crate) fn say_hashes<H: BlockDev, L: Listing>(
    path: &mut TreePath,
    shape: &Shape,
    device: &mut H,
    listing: &mut L,
) -> Result<bool, WriteFault>
    requires { CanCompareHashes path.old shape.now (H.state device.old) }
    ensures over { IsReadOver (H.state device.old) (H.state device.new) }
    ensures ok { IfOk result (TellsTree H.state L.told (tree_of_path path.old) device.old device.new listing.old listing.new) }
    ensures err { OnErr result (L.failed listing.new ≡ true) }
{
    let mut level = shape.levels();
    let mut whole = true;
    'levels: while level > 0 {
        level -= 1;
        let good = say_level(path, shape, device, level, listing)?;
        whole = both(whole, good);
    }
    Ok(whole)
}

fn both(a: bool, b: bool) -> bool
    ensures { result ≡ (a && b) }
{
    a && b
}

// Checks the hash blocks of one level.
fn say_level<H: BlockDev, L: Listing>(
    path: &mut TreePath,
    shape: &Shape,
    device: &mut H,
    level: u32,
    listing: &mut L,
) -> Result<bool, WriteFault>
    requires can { CanCompareHashes path.old shape.now (H.state device.old) }
    requires level { level < levels path.old.shape }
    requires few { level < 14 }
    ensures over { IsReadOver (H.state device.old) (H.state device.new) }
    ensures ok { IfOk result (TellsBad H.state L.told path.old path.new device.old device.new level listing.old listing.new) }
    ensures err { OnErr result (L.failed listing.new ≡ true) }
{
    let width = span(shape, level + 1, shape.blocks());
    let mut whole = true;
    'numbers: for number in 0..shape.level_blocks(level) {
        if !is_good(path, device, level, number * width) {
            say_hash(listing, level, number)?;
            whole = false;
        }
    }
    Ok(whole)
}

// Reads the hash block of a level on the path to a data block, after its parent, and returns whether it was found valid.
fn is_good<H: BlockDev>(path: &mut TreePath, device: &mut H, level: u32, index: u64) -> bool
    requires inside { index < path.old.shape.blocks }
    requires level { level < levels path.old.shape }
    requires few { level < 14 }
    requires fits { tree_sectors path.old.shape ≤ (H.state device.old).size }
    ensures over { IsReadOver (H.state device.old) (H.state device.new) }
    ensures ends { IsCompared path.old path.new (H.state device.old) (H.state device.new) level index result }
{
    if !read_above(path, device, level, index) {
        return false;
    }
    match load(path, device, level, index) {
        Some(stands) => both(stands, path.is_unused_zero(level, index)),
        None => false,
    }
}

// Reads the parent of the hash block of a level, if there is one, and returns whether it could be read. The parent needn't be
// valid.
fn read_above<H: BlockDev>(path: &mut TreePath, device: &mut H, level: u32, index: u64) -> bool
    requires inside { index < path.old.shape.blocks }
    requires level { level < levels path.old.shape }
    requires few { level < 14 }
    requires fits { tree_sectors path.old.shape ≤ (H.state device.old).size }
    ensures over { IsReadOver (H.state device.old) (H.state device.new) }
    ensures ends { IsAbove path.old path.new (H.state device.old) (H.state device.new) level index result }
{
    if level + 1 == path.levels() {
        return true;
    }
    match load(path, device, level + 1, index) {
        Some(_) => true,
        None => false,
    }
}

// `hash LEVEL INDEX`
fn say_hash<L: Listing>(listing: &mut L, level: u32, number: u64) -> Result<(), WriteFault>
    ensures { Tells L.told L.failed listing.old listing.new (hash_line_at level number) result }
{
    listing.tell(Line::Hash { level, number })
}
