//! The blocks of an image that parity covers.
ghost use Rattle.std.specs.Prelude.{◌≡◌, ◌++◌, false, IfErr, IfOk, IsTrue, OnOk};
ghost use Rattle.allocation.specs.Asked.{WasRefused};
ghost use Rattle.fec_area.specs.Layouts.{IsLayout};
ghost use Rattle.tree_repair.specs.Parity.{IsPlace};
ghost use Rattle.tree_repair.specs.ParitySearches.{AreCovered, IsCoveredOr, listed_number};

use crate::bad::BadBlock;
use crate::place::{Place, Repair, block_size};
use allocation::{OutOfMemory, push};
use fec_area::Layout;

/// Returns the indices of the blocks that parity covers.
///
/// # Errors
///
/// `OutOfMemory` if the allocator refused memory for an index.
pub(crate) fn covered_of(
    repair: &Repair,
    layout: &Layout,
    blocks: &[BadBlock],
) -> Result<Vec<u64>, OutOfMemory>
    requires { IsLayout layout.now }
    ensures ok { IfOk result (λ covered. AreCovered repair.now.shape layout.now blocks.now covered.items) }
    ensures err { IfErr result (WasRefused 1) }
{
    let mut covered = Vec::new(repair.alloc);
    'covered: for bad in blocks {
        let index = covered_at(repair, layout, bad.place);
        push_some(&mut covered, index)?;
    }
    Ok(covered)
}

// Appends the index of a block that parity covers.
fn push_some(covered: &mut Vec<u64>, index: Option<u64>) -> Result<(), OutOfMemory>
    ensures ok { OnOk result (covered.new.items ≡ covered.old.items ++ listed_number index) }
    ensures err { IfErr result (WasRefused 1) }
{
    match index {
        None => Ok(()),
        Some(index) => push(covered, index),
    }
}

/// Returns the index of a block among those that parity covers.
pub(crate) fn covered_at(repair: &Repair, layout: &Layout, place: Place) -> Option<u64>
    requires { IsLayout layout.now }
    ensures { IsCoveredOr repair.now.shape layout.now place.height place.index result }
{
    if !is_place(repair, place) {
        return None;
    }
    let Place { height, index } = place;
    let size = block_size(&repair.shape, height);
    if layout.block as usize != size {
        return None;
    }
    if height == 0 {
        return layout.covered_data(index);
    }
    let level = height - 1;
    let number = repair.shape.block_on_path(level, index);
    layout.covered_hash(repair.shape.position(level, number))
}

/// Returns whether the tree has this block.
pub(crate) fn is_place(repair: &Repair, place: Place) -> bool
    ensures some { IsTrue result → IsPlace repair.now.shape place.height place.index }
    ensures none { result ≡ false → IsPlace repair.now.shape place.height place.index → ⊥ }
{
    if place.index >= repair.shape.blocks() {
        return false;
    }
    if place.height > repair.shape.levels() {
        return false;
    }
    true
}
