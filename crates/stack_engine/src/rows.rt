//! Data blocks that are read together, and how each is judged.
ghost use Rattle.std.specs.Prelude.{◌≡◌, ◌⊎◌, true, false, ◌<◌, ◌≤◌, ◌+◌, ◌-◌, max, length, nat_lt, replicate, IsTrue};
ghost use Rattle.stack_lines.specs.Walks.{IsTreeOf};
ghost use Rattle.stack_engine.specs.SectorCalls.{AreReadTogether, last_bytes, place_in};
ghost use Rattle.stack_engine.specs.Healing.{alone_after};

use crate::path::PathBlock;
use crate::spare::LostBlock;
use dm_table::Verity;
use stack_config::Config;
use stack_lines::tree::{Tree, is_ignored};
use stack_meaning::IoFault;
use tree_shape::{Digest, digest_in};

/// The next of `count` data blocks, the way to which was walked: its number in the line, its place among them, how many
/// of them were scanned when data were read last, and whether the line ignores it.
#[derive(Clone, Copy)]
pub(crate) struct NextBlock {
    pub(crate) block: u64,
    pub(crate) at: usize,
    pub(crate) read: usize,
    pub(crate) count: usize,
    pub(crate) ignored: bool,
}

/// A data block that was read together with others, with the digest that is expected of it: whether the line ignores it, whether they
/// couldn't be read, so it is read alone, and else the digest that was made of its bytes.
#[derive(Clone, Copy)]
pub(crate) struct JudgedBlock {
    pub(crate) lost: LostBlock,
    pub(crate) ignored: bool,
    pub(crate) alone: bool,
    pub(crate) made: Digest,
}

/// The next data block, after those two digests are known; so many blocks are read alone.
pub(crate) fn judge(next: NextBlock, expected: &Digest, made: &Digest, alone: usize) -> JudgedBlock
    ensures { result ≡ record { lost = record { index = next.block; digest = expected.now }; ignored = next.ignored; alone = nat_lt next.at alone; made = made.now } }
{
    JudgedBlock {
        lost: LostBlock {
            index: next.block,
            digest: *expected,
        },
        ignored: next.ignored,
        alone: next.at < alone,
        made: *made,
    }
}

/// How many data blocks are taken in a row, at least one and so many at most: those that the line doesn't ignore, as far as
/// the last hash block on the way to the first one shows.
fn taken_in_a_row(
    config: &Config,
    verity: &Verity,
    tree: &Tree,
    path: &[PathBlock],
    index: u64,
    most: usize,
) -> usize
    requires tree { IsTreeOf config.now verity.now tree.now }
    requires some { 0 < most }
    ensures { AreReadTogether (place_in verity.now tree.now index) (last_bytes path.now) most result }
{
    if path.is_empty() {
        return 1;
    }
    let last = &path[path.len() - 1];
    let block = last.bytes.as_slice();
    let slot = tree.shape.slot_on_path(0, index) as usize;
    let digests = block.len() / Digest::SIZE;
    if digests <= slot {
        return 1;
    }
    let room = most.min(digests - slot);
    let mut many = 1;
    while many < room {
        let expected = digest_in(block, (slot + many) as u64);
        if is_ignored(config, verity, tree, &expected) {
            return many;
        }
        many += 1;
    }
    many
}

/// How many data blocks are read from that one on: none if it is ignored or was read; else all, or those that the line
/// doesn't ignore.
pub(crate) fn row_len(
    config: &Config,
    verity: &Verity,
    tree: &Tree,
    path: &[PathBlock],
    next: NextBlock,
) -> usize
    requires tree { IsTreeOf config.now verity.now tree.now }
    requires some { next.at < next.count }
    ensures fresh { (result ≡ 0) ⊎ (next.read ≤ next.at) }
    ensures some { next.ignored ≡ false → next.read ≤ next.at → 0 < result }
    ensures most { next.at + result ≤ next.count }
    ensures together { 0 < result → (next.ignored ≡ false) × AreReadTogether (place_in verity.now tree.now next.block) (last_bytes path.now) (next.count - next.at) result }
{
    if next.ignored {
        return 0;
    }
    if next.at < next.read {
        return 0;
    }
    let most = next.count - next.at;
    if !verity.ignore_zero_blocks {
        return most;
    }
    taken_in_a_row(config, verity, tree, path, next.block, most)
}

/// How many of the blocks are scanned after a read of so many from that one on.
pub(crate) fn read_as_far(next: NextBlock, many: usize) -> usize
    requires { next.at + many ≤ next.count }
    ensures { result ≡ max next.read (next.at + many) }
{
    let end = next.at + many;
    if end < next.read {
        return next.read;
    }
    end
}

/// How many of the blocks are scanned by reads of each alone, after the read of a row ended in that fault, or in none.
pub(crate) fn alone_as_far(lost: Option<IoFault>, read: usize, alone: usize) -> usize
    ensures { result ≡ alone_after lost read alone }
{
    match lost {
        Some(_) => read,
        None => alone,
    }
}

/// Whether a data block may be answered: one that is ignored is replaced by zeros, and another one must have the digest.
pub(crate) fn settle(ignored: bool, made: &Digest, expected: &Digest, block: &mut [u8]) -> bool
    ensures zeros { IsTrue result → ignored ≡ true → block.new ≡ replicate (length block.old) 0 }
    ensures same { IsTrue result → ignored ≡ false → (made.now ≡ expected.now) × (block.new ≡ block.old) }
    ensures other { result ≡ false → (ignored ≡ false) × (made.now ≡ expected.now → ⊥) }
{
    if ignored {
        block.fill(0);
        return true;
    }
    *made == *expected
}
