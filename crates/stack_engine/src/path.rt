//! The hash blocks on the way to a data block, as they stand from the block before.
ghost use Rattle.std.specs.Prelude.{◌≡◌, ◌<◌, ◌≤◌, ◌++◌, ◌∷◌, [], length, take, get_or, All, IsTrue, OnOk, OnErr};
ghost use Rattle.allocation.specs.Refusal.{IsOutOfMemory};
ghost use Rattle.stack_meaning.specs.Memory.{largest_allocation};
ghost use Rattle.verified_cache.specs.Cache.{CachedBlock};
ghost use Rattle.stack_engine.specs.Keeping.{AreHandedOut, AreSmall, handed_out, one_found};

use allocation::{OutOfMemory, copied, push};
use hash_tree::Chain;
use stack_lines::VerityPart;
use stack_meaning::Found;
use std::marker::Model;
use tree_shape::Digest;
use verified_cache::Key;

/// A hash block that was checked, its place, and the digest by which it was.
#[derive(Drop)]
pub(crate) struct PathBlock {
    pub(crate) key: Key,
    pub(crate) digest: Digest,
    pub(crate) bytes: Vec<u8>,
}

impl Model for PathBlock {
    ghost use Rattle.verified_cache.specs.Cache.{CachedBlock};

    ghost Value = { CachedBlock };

    ghost view = { λ b. record { key = b.key; digest = b.digest; bytes = b.bytes.items } };
}

/// The hash block of a level on the way to a data block, by that one's number: its place in the path, from the root down,
/// and the digest that is expected of it.
#[derive(Clone, Copy)]
pub(crate) struct WantedBlock {
    pub(crate) at: usize,
    pub(crate) level: u32,
    pub(crate) block: u64,
    pub(crate) digest: Digest,
}

/// A data block, by its number: the digest that is expected of it, and whether a part of it alone is read.
#[derive(Clone, Copy)]
pub(crate) struct WantedData {
    pub(crate) block: u64,
    pub(crate) digest: Digest,
    pub(crate) part: bool,
}

/// Whether the path has that block at that index, checked by that digest.
pub(crate) fn stands(path: &[PathBlock], at: usize, key: Key, digest: &Digest) -> bool
    ensures { IsTrue result → (at < length path.now) × ((x : CachedBlock) → ((get_or path.now at x).key ≡ key) × ((get_or path.now at x).digest ≡ digest.now)) }
{
    if at >= path.len() {
        return false;
    }
    let one = &path[at];
    one.key == key && one.digest == *digest
}

/// Stores a block at that index of the path, and drops the blocks below it.
pub(crate) fn put(path: &mut Vec<PathBlock>, at: usize, one: PathBlock) -> Result<(), OutOfMemory>
    requires { at ≤ length path.old.items }
    ensures ok { OnOk result (path.new.items ≡ take at path.old.items ++ (one ∷ [])) }
    ensures same { OnErr result (path.new.items ≡ take at path.old.items) }
    ensures err { OnErr result (IsOutOfMemory largest_allocation) }
{
    path.truncate(at);
    push(path, one)
}

/// Whether the chains of data blocks are returned.
#[derive(Clone, Copy)]
pub(crate) enum Chains {
    Kept,
    Dropped,
}

impl Chains {
    /// Appends the chain of a data block of a part's line, by its number in the line from 0, to those that were found
    /// before; or none.
    pub(crate) fn keep(
        self,
        part: &VerityPart<'_>,
        index: u64,
        path: &[PathBlock],
        content: &[u8],
        found: &mut Vec<Found>,
    ) -> Result<(), OutOfMemory>
        requires { AreSmall content.now path.now }
        ensures ok { OnOk result (found.new.items ≡ handed_out self found.old.items (one_found part.now index content.now path.now)) }
        ensures same { OnErr result (found.new.items ≡ found.old.items) }
        ensures err { OnErr result (IsOutOfMemory largest_allocation) }
    {
        match self {
            Chains::Kept => keep_chain(part, index, path, content, found),
            Chains::Dropped => Ok(()),
        }
    }

    /// Keeps the chains from place `at` on, which are returned, or drops them.
    pub(crate) fn hand_out(self, found: &mut Vec<Found>, at: usize)
        requires { at ≤ length found.old.items }
        ensures { AreHandedOut self (take at found.old.items) found.old.items found.new.items }
    {
        match self {
            Chains::Kept => {}
            Chains::Dropped => found.truncate(at),
        }
    }
}

/// The chains found before, and after them that of a data block of a part's line, by its number in the line from 0.
fn keep_chain(
    part: &VerityPart<'_>,
    index: u64,
    path: &[PathBlock],
    content: &[u8],
    found: &mut Vec<Found>,
) -> Result<(), OutOfMemory>
    requires { AreSmall content.now path.now }
    ensures ok { OnOk result (found.new.items ≡ found.old.items ++ (one_found part.now index content.now path.now ∷ [])) }
    ensures same { OnErr result (found.new.items ≡ found.old.items) }
    ensures err { OnErr result (IsOutOfMemory largest_allocation) }
{
    let alloc = *found.allocator();
    let content = copied(alloc, content)?;
    let mut blocks = Vec::new(alloc);
    for block in path {
        let copy = copied(alloc, block.bytes.as_slice())?;
        push(&mut blocks, copy)?;
    }
    let one = Found {
        device: part.device.0,
        line: part.line,
        chain: Chain {
            index,
            content,
            path: blocks,
        },
    };
    push(found, one)
}
