//! How many sectors the parity of an image takes before the image exists.
ghost use Rattle.std.specs.Prelude.{◌≡◌, ◌≢◌, ◌≤◌, ◌^◌, IfNone, IfSome, is_some, true};
ghost use Rattle.fec_commands.specs.Layings.{IsRoots};
ghost use Rattle.fec_commands.specs.Needed.{HasNone, IsNeeded, IsNeededGrown, TakesSectors, made_sectors, said_shape};
ghost use Rattle.fec_commands.specs.Wanted.{start_of};
ghost use Rattle.tree_shape.specs.Shape.{IsShape, first_fault};

use crate::wanted::{WantedTree, start_of};
use fec_area::Layout;
use tree_shape::Shape;
use verity_format::{given_blocks, image_sectors, tree_sectors};

/// How many sectors of data there are, and how many HASH has from the hash image's first sector on.
#[derive(Clone, Copy)]
pub(crate) struct FoundSectors {
    pub data: u64,
    pub hash: u64,
}

/// Returns how many sectors the parity takes of the image that options make from so many sectors of data, with so many sectors
/// for the hash image. `None` if the options make no image with parity.
pub(crate) fn needed_sectors(
    wanted: &WantedTree,
    data_sectors: u64,
    hash_sectors: u64,
    roots: u32,
) -> Option<u64>
    requires roots { IsRoots roots }
    requires small { hash_sectors ≤ 2 ^ 54 }
    ensures some { IfSome result (IsNeeded wanted.now data_sectors hash_sectors roots) }
    ensures none { IfNone result (HasNone wanted.now data_sectors) }
{
    let shape = said_shape(wanted, data_sectors)?;
    parity_of(&shape, hash_sectors, roots)
}

/// Returns the same for HASH extended to the hash image's size if it has fewer sectors.
pub(crate) fn needed_grown(wanted: &WantedTree, sectors: FoundSectors, roots: u32) -> Option<u64>
    requires roots { IsRoots roots }
    requires small { sectors.hash ≤ 2 ^ 54 }
    ensures some { IfSome result (IsNeededGrown wanted.now sectors roots) }
    ensures none { IfNone result (HasNone wanted.now sectors.«data») }
{
    match said_shape(wanted, sectors.data) {
        Some(shape) => {
            let hash_sectors = sectors.hash.max(made_sectors(&shape, wanted.bare));
            parity_of(&shape, hash_sectors, roots)
        }
        None => None,
    }
}

// How many sectors the hash image with a tree of that shape has; without a superblock those of the tree alone.
fn made_sectors(shape: &Shape, bare: bool) -> u64
    requires valid { IsShape shape.now }
    requires start { shape.now.start ≡ start_of bare }
    ensures value { result ≡ made_sectors bare shape.now }
    ensures small { result ≤ 2 ^ 54 }
{
    if bare {
        return tree_sectors(shape);
    }
    image_sectors(shape)
}

// The shape of the tree that options make over so many sectors of data.
fn said_shape(wanted: &WantedTree, data_sectors: u64) -> Option<Shape>
    ensures some { IfSome result (λ shape. shape ≡ said_shape wanted.now data_sectors) }
    ensures valid { IfSome result IsShape }
    ensures none { IfNone result (is_some (first_fault (said_shape wanted.now data_sectors)) ≡ true) }
{
    let size = wanted.options.data_block;
    let blocks = given_blocks(wanted.options.blocks, size, data_sectors);
    let start = start_of(wanted.bare);
    match Shape::new(size, wanted.options.hash_block, blocks, start) {
        Ok(shape) => Some(shape),
        Err(_) => None,
    }
}

/// Returns how many sectors the parity takes of an image with a tree of that shape, on a hash device of so many sectors, or `None` if
/// its data and hash blocks have different sizes.
pub fn parity_of(shape: &Shape, hash_sectors: u64, roots: u32) -> Option<u64>
    requires roots { IsRoots roots }
    requires small { hash_sectors ≤ 2 ^ 54 }
    ensures some { IfSome result (TakesSectors shape.now hash_sectors roots) }
    ensures none { IfNone result (shape.now.data_block ≢ shape.now.hash_block) }
{
    match Layout::of(shape, hash_sectors, roots as usize) {
        Some(layout) => Some(layout.parity_sectors()),
        None => None,
    }
}
