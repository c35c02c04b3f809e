//! The command `diff` on the files of two hash images.
ghost use Rattle.std.specs.Prelude.{OnOk, IfErr};
ghost use Rattle.verity_commands.specs.DiffImages.{DiffsBehind, DiffsDevices, DiffsImages, FailsBehind, FailsDevices, FailsToDiff, FailsToFind, FindsNoDifference};
ghost use Rattle.verity_commands.specs.CheckedDiffs.{FitsSecond};

use crate::checked_diff::check;
use crate::diff::{DiffForm, diff};
use crate::paths::{
    BothAt, HashPlaces, TwoHashes, close_both, hashes_of, open_both, place_both, whole_files,
};
use crate::tree_fault::TreeFault;
use crate::tree_pair::{SoughtTrees, TreeStarts, find_trees, misplaced};
use block_device::BlockDev;
use image_files::Images;
use program_io::Counted;
use std::alloc::Global;
use std::io::Write;
use tree_difference::{DifferenceFault, TreePair};

/// `diff [--all] [--runs N] [--json] [--old-hash-offset BYTES] [--hash-offset BYTES] HASH1 HASH2`, also with `--no-superblock`, with the
/// trees that are sought: prints a line for each longest run of data blocks that differ, and the totals; or one JSON object of both.
/// With `--all` each invalid hash block of the second tree comes first, since the comparison ends at an invalid one that it reads.
/// Both files are open before a superblock is read. Each superblock is read once, and nothing is printed before both trees are
/// found. Both files are closed at the end.
///
/// # Errors
///
/// - `Open` if a file isn't opened.
/// - `NoShape` if the options state no valid shape.
/// - `Trees` if a superblock isn't read or differs from its pin, a tree begins where no hash block does (without a superblock no
///   file was opened) or doesn't fit, or the trees are incomparable; or if the comparison ends early.
/// - `Damaged` if a hash block is invalid, else `Differs` if data blocks differ.
pub fn diff_images<'a, I: Images, W: Write>(
    alloc: Global,
    images: &mut I,
    places: &HashPlaces<'a>,
    sought: &SoughtTrees,
    form: DiffForm,
    writer: &mut Counted<W>,
) -> Result<(), TreeFault<'a>>
    ensures ok { OnOk result (DiffsImages I.relations I.Dev.state images.old images.new W.contents writer.old writer.new places.now sought.now form) }
    ensures err { IfErr result (FailsToDiff I.relations I.Dev.state images.old images.new W.contents writer.old writer.new places.now sought.now form) }
{
    let starts = TreeStarts {
        first: places.first.first,
        second: places.second.first,
    };
    match misplaced(&starts, sought) {
        Some(which) => return Err(TreeFault::Trees(DifferenceFault::Unaligned(which))),
        None => {}
    }
    let opened = open_both(alloc, images, places)?;
    let at = BothAt {
        first: opened.first.place,
        second: opened.second.place,
    };
    let two = hashes_of(opened);
    let (two, ended) = diff_behind(alloc, two, &starts, sought, form, writer);
    close_both(images, at, two);
    ended
}

// Compares the hash images that begin at those sectors of two devices, and returns the devices too.
fn diff_behind<'a, D: BlockDev, W: Write>(
    alloc: Global,
    two: TwoHashes<D>,
    starts: &TreeStarts,
    sought: &SoughtTrees,
    form: DiffForm,
    writer: &mut Counted<W>,
) -> (TwoHashes<D>, Result<(), TreeFault<'a>>)
    ensures ok { OnOk result.1 (DiffsBehind D.state two result.0 W.contents writer.old writer.new starts.now sought.now form) }
    ensures err { IfErr result.1 (FailsBehind D.state two result.0 W.contents writer.old writer.new starts.now sought.now form) }
{
    let mut placed = place_both(two, starts);
    let ended = diff_devices(alloc, &mut placed, starts, sought, form, writer);
    (whole_files(placed), ended)
}

// Compares two hash images, of which the trees are found first.
fn diff_devices<'a, D: BlockDev, W: Write>(
    alloc: Global,
    two: &mut TwoHashes<D>,
    starts: &TreeStarts,
    sought: &SoughtTrees,
    form: DiffForm,
    writer: &mut Counted<W>,
) -> Result<(), TreeFault<'a>>
    ensures ok { OnOk result (DiffsDevices D.state two.old two.new W.contents writer.old writer.new starts.now sought.now form) }
    ensures err { IfErr result (FailsDevices D.state two.old two.new W.contents writer.old writer.new starts.now sought.now form) }
{
    let first = &mut two.first.device;
    let second = &mut two.second.device;
    let pair = find_trees(first, second, starts, sought)?;
    find_difference(alloc, two, &pair, form, writer)
}

// Compares two trees; with `--all` the hash blocks of the second tree are checked before.
fn find_difference<'a, D: BlockDev, W: Write>(
    alloc: Global,
    two: &mut TwoHashes<D>,
    pair: &TreePair,
    form: DiffForm,
    writer: &mut Counted<W>,
) -> Result<(), TreeFault<'a>>
    requires { FitsSecond D.state two.old pair.now }
    ensures ok { OnOk result (FindsNoDifference form.all D.state two.old two.new W.contents writer.old writer.new pair.now form) }
    ensures err { IfErr result (FailsToFind form.all D.state two.old two.new W.contents writer.old writer.new pair.now form) }
{
    if form.all {
        return check(alloc, two, pair, form, writer);
    }
    diff(alloc, two, pair, form, writer)
}
