//! Digests pushed in groups: those of eight whole blocks of the lowest level, which are digested side by side.
ghost use Rattle.std.specs.Prelude.{true, false, ◌≡◌, ◌+◌, ◌*◌, ◌/◌, ◌^◌, ◌<◌, ◌≤◌, ◌++◌, length, take, All, IfOk, OnOk, OnErr, IsTrue};
ghost use Rattle.std.specs.List.{concat};
ghost use Rattle.allocation.specs.Refusal.{IsOutOfMemory};
ghost use Rattle.hash_tree.specs.Building.{block_room, completed, FailsToPush, HasSome, IsPushed, PushesBlock, are_whole_blocks, is_between, grow_block, completed_block};

use super::{Level, LevelBuilder, Placed, rise};
use crate::block_digests::eight_digests;
use crate::packing::are_whole;
use allocation::{OutOfMemory, append, copied, push, with_capacity};
use std::alloc::Global;
use tree_shape::{Digest, Salt};

impl LevelBuilder {
    /// The first of these digests, and how many those are: those of eight whole blocks of the lowest level, which are
    /// digested side by side, if there are as many and none is begun; else one.
    pub(super) fn push_next(
        &mut self,
        digests: &[Digest],
        out: &mut Vec<Placed>,
    ) -> Result<usize, OutOfMemory>
        requires working { self.old.failed ≡ false }
        requires some { 0 < length digests.now }
        requires left { length digests.now ≤ self.old.left }
        ensures count { IfOk result (λ n. (0 < n) × (n ≤ length digests.now)) }
        ensures ok { IfOk result (λ n. IsPushed self.old (take n digests.now) self.new out.old.items out.new.items) }
        ensures err { OnErr result (FailsToPush self.old self.new) }
        ensures some { HasSome out.old.items (completed self.old digests.now) out.new.items }
    {
        let group = self.hash_block / Digest::SIZE * 8;
        if group <= digests.len() && are_whole_blocks(self.hash_block) && is_between(&self.levels) {
            self.push_group(&digests[..group], out)?;
            return Ok(group);
        }
        self.push(digests[0], out)?;
        Ok(1)
    }

    /// The digests of eight whole blocks of the lowest level, if none is begun.
    fn push_group(&mut self, digests: &[Digest], out: &mut Vec<Placed>) -> Result<(), OutOfMemory>
        requires working { self.old.failed ≡ false }
        requires size { IsTrue (are_whole_blocks self.old.hash_block) }
        requires between { IsTrue (is_between self.old.levels) }
        requires count { length digests.now ≡ self.old.hash_block / 32 * 8 }
        requires left { length digests.now ≤ self.old.left }
        ensures ok { OnOk result (IsPushed self.old digests.now self.new out.old.items out.new.items) }
        ensures err { OnErr result (FailsToPush self.old self.new) }
        ensures some { HasSome out.old.items (completed self.old digests.now) out.new.items }
    {
        are_whole(digests);
        let size = self.hash_block;
        let alloc = *out.allocator();
        let blocks = match joined(alloc, digests) {
            Ok(blocks) => blocks,
            Err(refused) => {
                self.refused = Some(refused);
                return Err(refused);
            }
        };
        let eight = eight_digests(&self.salt, size, &blocks, 0);
        for k in 0..8_usize {
            self.push_block(&blocks[k * size..(k + 1) * size], eight[k], out)?;
        }
        Ok(())
    }

    /// A whole block of the lowest level, with its digest, if none is begun.
    fn push_block(
        &mut self,
        block: &[u8],
        digest: Digest,
        out: &mut Vec<Placed>,
    ) -> Result<(), OutOfMemory>
        requires working { self.old.failed ≡ false }
        requires some { 32 ≤ self.old.hash_block }
        requires left { self.old.hash_block / 32 ≤ self.old.left }
        ensures ok { OnOk result (PushesBlock self.old block.now digest self.new out.old.items out.new.items) }
        ensures err { OnErr result ((self.new.failed ≡ true) × IsOutOfMemory (block_room (self.old.hash_block + length block.now))) }
        ensures some { HasSome out.old.items (completed_block self.old block.now digest) out.new.items }
    {
        match rise_block(
            self.hash_block,
            &self.salt,
            &mut self.levels,
            &mut self.root,
            block,
            digest,
            out,
        ) {
            Ok(()) => {
                self.left -= (self.hash_block / Digest::SIZE) as u64;
                Ok(())
            }
            Err(refused) => {
                self.refused = Some(refused);
                Err(refused)
            }
        }
    }
}

/// A whole block comes to the lowest of these levels, if none is begun, with its digest, which comes to the next level.
fn rise_block(
    hash_block: usize,
    salt: &Salt,
    levels: &mut [Level],
    root: &mut Digest,
    block: &[u8],
    coming: Digest,
    out: &mut Vec<Placed>,
) -> Result<(), OutOfMemory>
    requires { All (λ l. l.next < 2 ^ 63) levels.old }
    ensures levels { OnOk result (levels.new ≡ (grow_block hash_block salt.now levels.old root.old block.now coming).levels) }
    ensures root { OnOk result (root.new ≡ (grow_block hash_block salt.now levels.old root.old block.now coming).root) }
    ensures out { OnOk result (out.new.items ≡ out.old.items ++ (grow_block hash_block salt.now levels.old root.old block.now coming).placed) }
    ensures some { HasSome out.old.items (grow_block hash_block salt.now levels.old root.old block.now coming).placed out.new.items }
    ensures err { OnErr result (IsOutOfMemory (block_room (hash_block + length block.now))) }
{
    let Some((level, above)) = levels.split_first_mut() else {
        return Ok(());
    };
    let alloc = *out.allocator();
    let bytes = copied(alloc, block)?;
    let number = level.next;
    level.next += 1;
    let placed = Placed {
        block: number,
        bytes,
    };
    push(out, placed)?;
    rise(hash_block, salt, above, root, coming, out)
}

/// Whether digests fill blocks of that size.
fn are_whole_blocks(size: usize) -> bool
    ensures { result ≡ are_whole_blocks size }
{
    size != 0 && size % Digest::SIZE == 0
}

/// Whether there is a lowest level, and no block of it is begun.
fn is_between(levels: &[Level]) -> bool
    ensures { result ≡ is_between levels.now }
{
    match levels.first() {
        Some(level) => level.bytes.is_empty(),
        None => false,
    }
}

/// The digests in a row.
fn joined(alloc: Global, digests: &[Digest]) -> Result<Vec<u8>, OutOfMemory>
    ensures ok { IfOk result (λ bytes. bytes.items ≡ concat digests.now) }
    ensures err { OnErr result (IsOutOfMemory (block_room (32 * length digests.now))) }
{
    let size = digests.len().saturating_mul(Digest::SIZE);
    let mut bytes = with_capacity(alloc, size)?;
    for digest in digests {
        append(&mut bytes, digest.as_bytes())?;
    }
    Ok(bytes)
}
