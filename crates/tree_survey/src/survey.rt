//! A scan of all data blocks of an image.
ghost use Rattle.std.specs.Prelude.{OnOk, IfOk, IfErr};
ghost use Rattle.tree_shape.specs.Shape.{IsShape};
ghost use Rattle.verity_format.specs.Blocks.{IsOnlyRead};
ghost use Rattle.tree_survey.specs.Causes.{EndsPass, EndsSurvey, HasRoom, IsCutOff};
ghost use Rattle.tree_survey.specs.Failing.{IsReadOver};
ghost use Rattle.tree_survey.specs.Passes.{CanPass, HasPassed, IsSurvey, Surveys, seen_pass, tree_in};

use crate::checked_path::CheckedPath;
use crate::counts::{Counts, Totals};
use crate::fault::SurveyFault;
use crate::hashes::say_hashes;
use crate::pieces::{blocks_of, digest_of, digest_room, piece_room, read_piece};
use block_device::BlockDev;
use runs::Listing;
use std::alloc::Global;
use tree_path::TreePath;
use tree_shape::{Digest, Salt, Shape};
use verity_format::{VerifyFault, VerityTree, data_sectors, tree_sectors};

/// The result of a scan: the counts of data blocks, and whether all hash blocks are valid.
#[derive(Clone, Copy, Debug, PartialEq, Eq)]
pub struct Survey {
    pub totals: Totals,
    pub whole_tree: bool,
}

/// Scans an image whose tree is known. It reports a line for each longest run of data blocks that aren't valid, in rising
/// order, and then a line for each hash block that isn't valid, in the order of the blocks on the hash device.
///
/// Data blocks are read once, in large pieces. If a piece can't be read, its blocks are read one by one. A block that can't be
/// read counts as one that isn't valid.
///
/// # Errors
///
/// - `TooSmall` if the data or the tree don't fit on their device; nothing was read.
/// - `NoMemory` if an allocation was refused.
/// - `Write` if a line can't be reported.
#[tactic(auto, using(crate::proofs::SurveyLemmas::room_ends, crate::proofs::SurveyLemmas::pass_ends))]
pub fn survey_image<D: BlockDev, H: BlockDev, L: Listing>(
    alloc: Global,
    data_dev: &mut D,
    hash_dev: &mut H,
    tree: &VerityTree,
    root: &Digest,
    listing: &mut L,
) -> Result<Survey, SurveyFault>
    ensures data { IsOnlyRead (D.state data_dev.old) (D.state data_dev.new) }
    ensures hash { IsOnlyRead (H.state hash_dev.old) (H.state hash_dev.new) }
    ensures ok { IfOk result (IsSurvey tree.now (seen_pass D.state H.state L.told data_dev.old hash_dev.old data_dev.new hash_dev.new listing.old listing.new) root.now) }
    ensures err { IfErr result (EndsSurvey tree.now D.state H.state data_dev.old hash_dev.old data_dev.new hash_dev.new (L.failed listing.new)) }
{
    check_room(data_dev, hash_dev, &tree.shape)?;
    let path = TreePath::new(alloc, tree.shape, tree.salt, *root)?;
    let mut checked_path = CheckedPath::new(path, tree.shape);
    let totals = survey_data(
        alloc,
        &mut checked_path,
        &tree.salt,
        data_dev,
        hash_dev,
        listing,
    )?;
    let whole_tree = say_hashes(&mut checked_path.path, &tree.shape, hash_dev, listing)?;
    Ok(Survey { totals, whole_tree })
}

// Checks that the data and the tree fit on their devices.
fn check_room<D: BlockDev, H: BlockDev>(
    data_dev: &D,
    hash_dev: &H,
    shape: &Shape,
) -> Result<(), SurveyFault>
    ensures valid { IsShape shape.now }
    ensures ok { OnOk result (HasRoom shape.now (D.state data_dev.now) (H.state hash_dev.now)) }
    ensures err { IfErr result (IsCutOff shape.now (D.state data_dev.now) (H.state hash_dev.now)) }
{
    let _blocks = shape.blocks();
    if data_dev.sectors() < data_sectors(shape) {
        return Err(SurveyFault::Image(VerifyFault::TooSmall));
    }
    if hash_dev.sectors() < tree_sectors(shape) {
        return Err(SurveyFault::Image(VerifyFault::TooSmall));
    }
    Ok(())
}

// Scans the data blocks, from the first on.
fn survey_data<D: BlockDev, H: BlockDev, L: Listing>(
    alloc: Global,
    checked_path: &mut CheckedPath,
    salt: &Salt,
    data_dev: &mut D,
    hash_dev: &mut H,
    listing: &mut L,
) -> Result<Totals, SurveyFault>
    requires { CanPass checked_path.old salt.now (D.state data_dev.old) (H.state hash_dev.old) }
    ensures data { IsReadOver (D.state data_dev.old) (D.state data_dev.new) }
    ensures hash { IsReadOver (H.state hash_dev.old) (H.state hash_dev.new) }
    ensures passed { OnOk result (HasPassed checked_path.old checked_path.new) }
    ensures ok { IfOk result (Surveys (tree_in checked_path.old) (seen_pass D.state H.state L.told data_dev.old hash_dev.old data_dev.new hash_dev.new listing.old listing.new)) }
    ensures err { IfErr result (EndsPass D.state H.state data_dev.old hash_dev.old data_dev.new hash_dev.new (L.failed listing.new)) }
{
    let mut memory = piece_room(alloc)?;
    let mut room = digest_room(alloc)?;
    let piece = memory.as_mut_slice();
    let digests = room.as_mut_slice();
    let shape = checked_path.shape;
    let size = shape.data_block() as usize;
    let mut counts = Counts::new();
    let mut at = 0;
    'pieces: while at < shape.blocks() {
        let count = blocks_of(&shape, at);
        let whole = read_piece(data_dev, salt, size, at, count, piece, digests);
        'run: for k in 0..count {
            let index = at + k as u64;
            let found = digest_of(data_dev, salt, size, index, whole, &digests[k], piece);
            checked_path.go_to(hash_dev, index);
            counts.add(listing, index, checked_path.state(index, found))?;
        }
        at += count as u64;
    }
    counts.tally.close(listing)?;
    Ok(counts.totals)
}
