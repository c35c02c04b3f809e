//! The lost blocks of a round.
ghost use Rattle.std.specs.Prelude.{ℕ, ◌≡◌, ◌<◌, ◌≤◌, ◌+◌, ◌-◌, ◌*◌, ◌/◌, ◌%◌, All, EachIndex, OnErr, OnOk, length, slice_index, take};
ghost use Rattle.allocation.specs.Refusal.{IsOutOfMemory};
ghost use Rattle.reed_solomon.specs.Factors.{erasure_factor};
ghost use Rattle.stack_meaning.specs.Erasures.{is_among};
ghost use Rattle.stack_meaning.specs.Memory.{largest_allocation};
ghost use Rattle.stack_engine.specs.Erasures.{AreColumnsOf, AreParityColumnsOf, IsNoted, are_whole, record_of, vain_fault};

use crate::spare::{LostBlock, add_scaled_block, add_scaled_stored};
use allocation::{OutOfMemory, push};
use dm_table::Verity;
use reed_solomon::erasure_factor;
use stack_meaning::{Fault, IoFault};
use tree_shape::Digest;

/// What is known of a block as it is stored: it isn't lost, or it is; or its leaf failed, by its number from 1, and it has that digest if
/// it is as it was.
#[derive(Clone, Copy)]
pub(crate) enum Judged {
    Kept,
    Lost,
    Unread(u32, Digest),
}

/// A lost block whose leaf failed: its place among the lost ones, and its digest.
#[derive(Clone, Copy)]
pub(crate) struct Unread {
    pub(crate) column: usize,
    pub(crate) digest: Digest,
}

/// The lost blocks of the round of a covered block: that block, and the positions of the lost ones in the round, its own first; those
/// whose leaf failed, and the first such leaf.
#[derive(Drop)]
pub(crate) struct Losses {
    pub(crate) lost: LostBlock,
    pub(crate) places: Vec<usize>,
    pub(crate) unread: Vec<Unread>,
    pub(crate) failed: Option<u32>,
}

impl Losses {
    /// Notes what is known of the block at a position.
    pub(crate) fn note(&mut self, place: u32, judged: Judged) -> Result<(), OutOfMemory>
        ensures ok { OnOk result (IsNoted self.old self.new place judged) }
        ensures err { OnErr result (IsOutOfMemory largest_allocation) }
    {
        match judged {
            Judged::Kept => Ok(()),
            Judged::Lost => push(&mut self.places, place as usize),
            Judged::Unread(leaf, digest) => {
                if self.failed.is_none() {
                    self.failed = Some(leaf);
                }
                let column = self.places.len();
                push(&mut self.unread, Unread { column, digest })?;
                push(&mut self.places, place as usize)
            }
        }
    }

    /// Whether the block at a position is lost.
    pub(crate) fn has(&self, place: u32) -> bool
        ensures { result ≡ is_among self.now.places.items place }
    {
        self.places.contains(&(place as usize))
    }

    /// The fault of an attempt to restore the block that is in vain: that of the leaf that failed, since the block might be restored if it
    /// hadn't.
    pub(crate) fn vain(&self) -> IoFault
        ensures { result ≡ vain_fault self.now.failed }
    {
        match self.failed {
            Some(leaf) => IoFault::Device(leaf),
            None => IoFault::Stack(Fault::Mismatch),
        }
    }

    /// Adds to the sums of each lost block the block at a position of the round, times its factor.
    pub(crate) fn add_block(&self, place: u32, block: &[u8], sums: &mut [u8])
        requires places { EachIndex self.now.places.items (λ k. slice_index self.now.places.items k < 255) }
        requires place { place < 255 }
        requires size { length sums.old ≡ length self.now.places.items * length block.now }
        ensures { AreColumnsOf self.now.places.items place block.now sums.old sums.new }
    {
        let places = self.places.as_slice();
        let size = block.len();
        for column in 0..places.len() {
            let factor = erasure_factor(places, places[column], place as usize);
            let from = column * size;
            add_scaled_block(factor, block, &mut sums[from..from + size]);
        }
    }

    /// Adds to the sums of each lost block the parity of the round, with so many bytes for a codeword, each times its factor.
    pub(crate) fn add_parity(&self, parity: &[u8], roots: usize, sums: &mut [u8])
        requires places { EachIndex self.now.places.items (λ k. slice_index self.now.places.items k < 255) }
        requires roots { (0 < roots) × ((roots ≤ 24) × (length parity.now % roots ≡ 0)) }
        requires size { length sums.old ≡ length self.now.places.items * (length parity.now / roots) }
        ensures { AreParityColumnsOf self.now.places.items roots parity.now sums.old sums.new }
    {
        let places = self.places.as_slice();
        let size = parity.len() / roots;
        for column in 0..places.len() {
            let ends = parity_factors(places, places[column], roots);
            let from = column * size;
            add_scaled_stored(&ends[..roots], parity, &mut sums[from..from + size]);
        }
    }

    /// The bytes of the sums of all lost blocks, of that size.
    pub(crate) fn room(&self, size: usize) -> usize
        requires few { length self.now.places.items ≤ 24 }
        requires size { size ≤ 4096 }
        ensures value { result ≡ length self.now.places.items * size }
        ensures fits { result ≤ 98304 }
    {
        self.places.len() * size
    }

    /// Whether the restored block has its digest, and so has each lost one whose leaf failed: then the others were judged as if none had.
    pub(crate) fn are_whole(&self, verity: &Verity, sums: &[u8]) -> bool
        requires some { 0 < length self.now.places.items }
        requires columns { All (λ one. one.column < length self.now.places.items) self.now.unread.items }
        requires size { length sums.now ≡ length self.now.places.items * verity.now.data_block }
        ensures { result ≡ are_whole verity.now (record_of self.now) self.now.lost.digest sums.now }
    {
        let size = verity.data_block as usize;
        if verity.salt.digest(&sums[..size]) != self.lost.digest {
            return false;
        }
        for one in &self.unread {
            let from = one.column * size;
            if verity.salt.digest(&sums[from..from + size]) != one.digest {
                return false;
            }
        }
        true
    }
}

/// Takes the first bytes.
pub(crate) fn take_first(sums: &[u8], out: &mut [u8])
    requires { length out.old ≤ length sums.now }
    ensures { out.new ≡ take (length out.old) sums.now }
{
    let size = out.len();
    out.copy_from_slice(&sums[..size]);
}

/// The factors of the parity, with so many bytes for a codeword, in the sum that is the byte at a lost position.
fn parity_factors(places: &[usize], place: usize, roots: usize) -> [u8; 24]
    requires places { EachIndex places.now (λ k. slice_index places.now k < 255) }
    requires inside { (place < 255) × (roots ≤ 24) }
    ensures len { length result ≡ 24 }
    ensures are { (k : ℕ) → k < roots → slice_index result k ≡ erasure_factor places.now place (255 - roots + k) }
{
    let mut ends = [0u8; 24];
    for k in 0..roots {
        ends[k] = erasure_factor(places, place, 255 - roots + k);
    }
    ends
}
