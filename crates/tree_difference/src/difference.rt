//! Compares two trees from their roots down.
ghost use Rattle.std.specs.Prelude.{◌≡◌, ◌≤◌, ◌<◌, ◌+◌, ◌^◌, OnErr, OnOk, IfOk, IfErr, IfSome};
ghost use Rattle.allocation.specs.Refusal.{IsOutOfMemory};
ghost use Rattle.tree_path.specs.Path.{largest_block};
ghost use Rattle.runs.specs.Listings.{Tells};
ghost use Rattle.runs.specs.Tallies.{EndsAt};
ghost use Rattle.tree_difference.specs.Causes.{EndsWalk, IsFirstBlock};
ghost use Rattle.tree_difference.specs.Comparisons.{IsReported};
ghost use Rattle.tree_difference.specs.Differences.{Aligns, AreShapes, CanCompare, EndsDifference, HaveTrees, IsDifference, IsDifferenceCause, IsWalkOf, ReadsPairs, ReportsRuns, ComparesBlocks, last_lines, rest_run, seen_world, totals_in, trees_of};

use crate::fault::{DifferenceFault, Which};
use crate::reading::read_down;
use crate::root_block::check_root_block;
use crate::trees::{TreePair, check_pair};
use crate::walk::Walk;
use allocation::OutOfMemory;
use block_device::BlockDev;
use program_io::WriteFault;
use runs::{Kind, Listing, Run, Tally};
use std::alloc::Global;
use tree_path::{TreePath, span, top_at};

/// How many data blocks have the same digest in both trees, how many have different ones, and how many are in one tree only.
#[derive(Clone, Copy, Debug, PartialEq, Eq)]
pub struct Totals {
    pub same: u64,
    pub changed: u64,
    pub removed: u64,
    pub added: u64,
}

/// Compares two trees from their roots down. It reports a line for each longest run of data blocks
/// that differ, in rising order: at most `most` lines, then `more`.
///
/// Both root hash blocks are read and checked, even if the root hashes are equal. Below them a subtree is read only if its
/// digests differ. Each hash block that is read is checked against the hash stored in its parent. If the comparison ends early, the
/// runs of the data blocks compared before are reported.
///
/// # Errors
///
/// - `Image` with `TooSmall` if a tree doesn't fit on its device, or `Unlike` if the trees are incomparable; nothing was read.
/// - `Image` with `Device` if a device failed.
/// - `Hash` if a hash block fails verification.
/// - `NoMemory` if an allocation was refused.
/// - `Write` if a line can't be reported.
pub fn compare_trees<D: BlockDev, E: BlockDev, L: Listing>(
    alloc: Global,
    first: &mut D,
    second: &mut E,
    pair: &TreePair,
    most: Option<u64>,
    listing: &mut L,
) -> Result<Totals, DifferenceFault>
    ensures ok { IfOk result (IsDifference (seen_world D.state E.state L.told first.old second.old first.new second.new listing.old listing.new) pair.now most) }
    ensures err { IfErr result (IsDifferenceCause (seen_world D.state E.state L.told first.old second.old first.new second.new listing.old listing.new) pair.now (L.failed listing.new)) }
    ensures before { IfErr result (IsReported (trees_of pair.now) (seen_world D.state E.state L.told first.old second.old first.new second.new listing.old listing.new) most) }
{
    let one = first.sectors();
    let two = second.sectors();
    check_pair(pair, one, two)?;
    check_root_block(alloc, first, Which::First, &pair.first, pair.roots.first)?;
    check_root_block(
        alloc,
        second,
        Which::Second,
        &pair.second,
        pair.roots.second,
    )?;
    let mut walk = begin(alloc, pair)?;
    align(&mut walk, first, second)?;
    compare(&mut walk, first, second, most, listing)
}

// Returns the paths of two trees, of which nothing was read.
fn begin(alloc: Global, pair: &TreePair) -> Result<Walk, OutOfMemory>
    ensures valid { AreShapes (trees_of pair.now) }
    ensures ok { IfOk result (IsWalkOf (trees_of pair.now)) }
    ensures err { OnErr result (IsOutOfMemory largest_block) }
{
    let shape = pair.first.shape;
    let other = pair.second.shape;
    let blocks = shape.blocks().min(other.blocks());
    let first = TreePath::new(alloc, shape, pair.first.salt, pair.roots.first)?;
    let second = TreePath::new(alloc, other, pair.second.salt, pair.roots.second)?;
    Ok(Walk {
        first,
        second,
        shape,
        levels: shape.levels().min(other.levels()),
        blocks,
    })
}

// Reads the first hash block of each level that only one of the trees has.
fn align<D: BlockDev, E: BlockDev>(
    walk: &mut Walk,
    first: &mut D,
    second: &mut E,
) -> Result<(), DifferenceFault>
    requires { HaveTrees walk.old (D.state first.old) (E.state second.old) }
    ensures ok { OnOk result (Aligns D.state E.state walk.old walk.new first.old second.old first.new second.new) }
    ensures err { IfErr result (EndsWalk D.state E.state walk.old first.old second.old first.new second.new) }
    ensures first { IfErr result IsFirstBlock }
{
    let levels = walk.levels;
    let top = walk.first.levels();
    read_down(&mut walk.first, first, Which::First, 0, top, levels)?;
    let top = walk.second.levels();
    read_down(&mut walk.second, second, Which::Second, 0, top, levels)
}

// Compares the trees from the common levels down.
fn compare<D: BlockDev, E: BlockDev, L: Listing>(
    walk: &mut Walk,
    first: &mut D,
    second: &mut E,
    most: Option<u64>,
    listing: &mut L,
) -> Result<Totals, DifferenceFault>
    requires { CanCompare walk.old (D.state first.old) (E.state second.old) }
    ensures ok { IfOk result (ComparesBlocks D.state E.state L.told walk.old first.old second.old first.new second.new listing.old listing.new most) }
    ensures reads { OnOk result (ReadsPairs D.state E.state L.told walk.old first.old second.old first.new second.new listing.old listing.new) }
    ensures err { IfErr result (EndsDifference D.state E.state walk.old first.old second.old first.new second.new (L.failed listing.new)) }
    ensures before { IfErr result (ReportsRuns D.state E.state L.told walk.old first.old second.old first.new second.new listing.old listing.new most) }
{
    let mut tally = Tally::new(most);
    let mut changed = 0;
    let mut at = 0;
    let shape = walk.shape;
    let levels = walk.levels;
    let blocks = walk.blocks;
    'spans: while at < blocks {
        let top = top_at(&shape, levels, at);
        let stop = match walk.descend(first, second, at, top) {
            Ok(stop) => stop,
            Err(fault) => {
                tally.close(listing)?;
                return Err(fault);
            }
        };
        let count = span(&shape, stop.level, blocks - at);
        if stop.same {
            tally.close(listing)?;
        } else {
            let run = Run {
                first: at,
                count,
                kind: Kind::Changed,
            };
            tally.add(listing, run)?;
            changed += count;
        }
        at += count;
    }
    finish(walk, &mut tally, listing)?;
    Ok(totals_after(walk, changed))
}

// Reports the last run, and the data blocks that are in one tree only.
fn finish<L: Listing>(walk: &Walk, tally: &mut Tally, listing: &mut L) -> Result<(), WriteFault>
    requires { EndsAt tally.old.last walk.now.blocks }
    ensures { Tells L.told L.failed listing.old listing.new (last_lines tally.old walk.now) result }
{
    match rest(walk) {
        Some(run) => {
            tally.add(listing, run)?;
            tally.close(listing)
        }
        None => tally.close(listing),
    }
}

// The totals if `changed` data blocks differ.
fn totals_after(walk: &Walk, changed: u64) -> Totals
    requires few { changed ≤ walk.now.blocks }
    requires first { walk.now.blocks ≤ walk.now.first.shape.blocks }
    requires second { walk.now.blocks ≤ walk.now.second.shape.blocks }
    ensures { result ≡ totals_in walk.now changed }
{
    Totals {
        same: walk.blocks - changed,
        changed,
        removed: walk.first.data_blocks() - walk.blocks,
        added: walk.second.data_blocks() - walk.blocks,
    }
}

// The data blocks that are in one tree only.
fn rest(walk: &Walk) -> Option<Run<Kind>>
    ensures value { result ≡ rest_run walk.now }
    ensures inside { IfSome result (λ r. r.first + r.count < 2 ^ 64) }
{
    let removed = walk.first.data_blocks();
    if walk.blocks < removed {
        return Some(Run {
            first: walk.blocks,
            count: removed - walk.blocks,
            kind: Kind::Removed,
        });
    }
    let added = walk.second.data_blocks();
    if walk.blocks < added {
        return Some(Run {
            first: walk.blocks,
            count: added - walk.blocks,
            kind: Kind::Added,
        });
    }
    None
}
