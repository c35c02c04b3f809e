//! The corrupt blocks of an image.
ghost use Rattle.std.specs.Prelude.{◌≡◌, ◌≤◌, ◌+◌, ◌||◌, not, ◌++◌, ◌∷◌, true, false, [], IfErr, IsTrue, OnOk, length};
ghost use Rattle.allocation.specs.Asked.{WasRefused};
ghost use Rattle.tree_repair.specs.Noting.{IsNoted, any_after, found_of, kept_or, passed_some, unless};

use crate::mending::Mended;
use crate::place::Place;
use allocation::{OutOfMemory, push};
use std::alloc::Global;

/// A block that is corrupt on its device, and whether its bytes were found elsewhere.
#[derive(Clone, Copy)]
pub(crate) struct BadBlock {
    pub(crate) place: Place,
    pub(crate) found: bool,
}

/// What a pass notes: the corrupt blocks, if the caller asks for them; whether there are any; whether some blocks were skipped;
/// and whether a block was written but not read back, which isn't among the corrupt blocks.
#[derive(Drop)]
pub(crate) struct BadBlocks {
    asked: bool,
    blocks: Vec<BadBlock>,
    any: bool,
    passed: bool,
    unkept: bool,
}

impl BadBlocks {
    /// Returns notes of no blocks. `asked` sets whether the corrupt blocks are kept.
    pub(crate) fn new(alloc: Global, asked: bool) -> BadBlocks
        ensures asked { result.asked ≡ asked }
        ensures none { result.blocks.items ≡ [] }
        ensures fresh { (result.any ≡ false) × (result.passed ≡ false) }
    {
        BadBlocks {
            asked,
            blocks: Vec::new(alloc),
            any: false,
            passed: false,
            unkept: false,
        }
    }

    /// Notes the result of a visit. A block that was written isn't corrupt any more.
    ///
    /// # Errors
    ///
    /// `OutOfMemory` if the allocator refused memory for the block.
    pub(crate) fn note(
        &mut self,
        place: Place,
        mended: Mended,
        write: bool,
    ) -> Result<(), OutOfMemory>
        ensures asked { self.new.asked ≡ self.old.asked }
        ensures noted { OnOk result (IsNoted self.old self.new place (found_of write mended)) }
        ensures few { OnOk result (length self.new.blocks.items ≤ length self.old.blocks.items + 1) }
        ensures any { OnOk result (self.new.any ≡ any_after self.old.any (found_of write mended)) }
        ensures passed { self.new.passed ≡ self.old.passed }
        ensures unkept { self.new.unkept ≡ self.old.unkept }
        ensures err { IfErr result (WasRefused 1) }
    {
        match found_of(mended, write) {
            None => Ok(()),
            Some(found) => self.add(BadBlock { place, found }),
        }
    }

    // Notes a corrupt block.
    fn add(&mut self, block: BadBlock) -> Result<(), OutOfMemory>
        ensures asked { self.new.asked ≡ self.old.asked }
        ensures noted { OnOk result (IsTrue self.old.asked → self.new.blocks.items ≡ self.old.blocks.items ++ (block ∷ [])) }
        ensures few { OnOk result (length self.new.blocks.items ≤ length self.old.blocks.items + 1) }
        ensures any { self.new.any ≡ true }
        ensures passed { self.new.passed ≡ self.old.passed }
        ensures unkept { self.new.unkept ≡ self.old.unkept }
        ensures err { IfErr result (WasRefused 1) }
    {
        self.any = true;
        if !self.asked {
            return Ok(());
        }
        push(&mut self.blocks, block)
    }

    /// Notes whether a block was read back after it was written. If it wasn't, it isn't known to be valid.
    pub(crate) fn keep(&mut self, kept: bool)
        ensures { self.new ≡ kept_or kept self.old }
    {
        if !kept {
            self.any = true;
            self.unkept = true;
        }
    }

    /// Notes that blocks were skipped.
    pub(crate) fn pass_by(&mut self)
        ensures { self.new ≡ passed_some self.old }
    {
        self.passed = true;
    }

    /// Returns whether all of an image is valid after a pass. `back` states whether all noted blocks were restored since, and
    /// `write` whether anything may be written. Without `write` a restored block is still corrupt on its device, so none may
    /// have been noted.
    pub(crate) fn is_whole(&self, back: bool, write: bool) -> bool
        ensures passed { IsTrue result → self.now.passed ≡ false }
        ensures unkept { IsTrue result → self.now.unkept ≡ false }
        ensures back { IsTrue result → IsTrue back }
        ensures any { IsTrue result → write ≡ false → self.now.any ≡ false }
    {
        if self.passed || self.unkept || !back {
            return false;
        }
        write || !self.any
    }

    /// Returns whether no corrupt block is known and none was skipped.
    pub(crate) fn is_none(&self) -> bool
        ensures { result ≡ not (self.now.any || self.now.passed) }
    {
        !(self.any || self.passed)
    }

    /// Returns the corrupt blocks.
    pub(crate) fn noted(&self) -> &[BadBlock]
        ensures { result.now ≡ self.now.blocks.items }
    {
        &self.blocks
    }
}

// Whether a block that is still corrupt was found elsewhere; `None` for a block that is valid now.
fn found_of(mended: Mended, write: bool) -> Option<bool>
    ensures { result ≡ found_of write mended }
{
    match mended {
        Mended::Good => None,
        Mended::Copy(_) => unless(write),
        Mended::Remade => unless(write),
        Mended::Parity => unless(write),
        Mended::Lost => Some(false),
    }
}

fn unless(write: bool) -> Option<bool>
    ensures { result ≡ unless write }
{
    if write { None } else { Some(true) }
}
