//! The tree made digest by digest.
ghost use Rattle.std.specs.Prelude.{true, false, ◌≡◌, ◌+◌, ◌*◌, ◌^◌, ◌<◌, ◌≤◌, ◌++◌, ◌∷◌, [], length, All, IfOk, OnOk, OnErr, is_err};
ghost use Rattle.allocation.specs.Refusal.{IsOutOfMemory};
ghost use Rattle.tree_shape.specs.Shape.{IsShape, levels};
ghost use Rattle.hash_tree.specs.Building.{begun_builder, begun_levels, block_room, builder_room, completed, last_completed, built_root, FailsToPush, HasSome, Pushes, grow, close};

mod block_bytes;
mod grouping;

use allocation::{OutOfMemory, push, with_capacity};
use block_bytes::{append, extend, fill};
use std::alloc::Global;
use std::marker::Model;
use std::mem;
use tree_shape::{Digest, Salt, Shape};

/// A hash block with its number on the hash device.
#[derive(Drop)]
pub struct Placed {
    pub block: u64,
    pub bytes: Vec<u8>,
}

impl Model for Placed {
    ghost use Rattle.hash_tree.specs.Building.{PlacedRecord};

    ghost Value = { PlacedRecord };

    ghost view = { λ p. record { block = p.block; bytes = p.bytes.items } };
}

/// Where a level's next block will be stored, and the bytes that it has so far.
#[derive(Drop)]
struct Level {
    next: u64,
    bytes: Vec<u8>,
}

impl Model for Level {
    ghost use Rattle.hash_tree.specs.Building.{LevelRecord};

    ghost Value = { LevelRecord };

    ghost view = { λ l. record { next = l.next; bytes = l.bytes.items } };
}

/// A tree under construction: it takes the data blocks' digests in order, and has one block of each level.
#[derive(Drop)]
pub struct LevelBuilder {
    hash_block: usize,
    salt: Salt,
    left: u64,
    refused: Option<OutOfMemory>,
    levels: Vec<Level>,
    root: Digest,
}

impl Model for LevelBuilder {
    ghost use Rattle.std.specs.Prelude.{◌≡◌, ◌+◌, ◌^◌, ◌≤◌, false, All, is_some};
    ghost use Rattle.hash_tree.specs.Building.{BuilderRecord, HaveRoom};

    ghost Value = { BuilderRecord };

    ghost view = { λ b. record {
      hash_block = b.hash_block;
      salt = b.salt;
      left = b.left;
      failed = is_some b.refused;
      levels = b.levels.items;
      root = b.root;
    } };

    ghost invariant = { λ b. is_some b.refused ≡ false → HaveRoom b.left b.levels.items };
}

impl LevelBuilder {
    /// A builder without a digest.
    ///
    /// # Errors
    ///
    /// `OutOfMemory` if the allocator refused room for its levels.
    pub fn new(alloc: Global, shape: Shape, salt: Salt) -> Result<LevelBuilder, OutOfMemory>
        ensures value { IfOk result (λ b. b ≡ begun_builder shape salt) }
        ensures valid { IsShape shape }
        ensures err { OnErr result (IsOutOfMemory 14) }
    {
        let hash_block = shape.hash_block() as usize;
        let left = shape.blocks();
        Ok(LevelBuilder {
            hash_block,
            salt,
            left,
            refused: None,
            levels: begun_levels(alloc, &shape)?,
            root: Digest::new([0; Digest::SIZE]),
        })
    }

    /// How many digests are still to come.
    pub fn left(&self) -> u64
        ensures { result ≡ self.now.left }
    {
        self.left
    }

    /// The next data block's digest; `out` gets the blocks that it completes.
    ///
    /// # Errors
    ///
    /// `OutOfMemory` if the allocator refused room for a hash block. Each later call returns the same error.
    pub fn push(&mut self, digest: Digest, out: &mut Vec<Placed>) -> Result<(), OutOfMemory>
        requires { self.old.failed ≡ false → 0 < self.old.left }
        ensures ok { OnOk result (Pushes self.old (digest ∷ []) self.new out.old.items out.new.items) }
        ensures err { OnErr result (FailsToPush self.old self.new) }
        ensures some { HasSome out.old.items (completed self.old (digest ∷ [])) out.new.items }
        ensures failed { self.old.failed ≡ true → (is_err result ≡ true) × (out.new.items ≡ out.old.items) }
    {
        match self.refused {
            Some(refused) => return Err(refused),
            None => {}
        }
        match rise(
            self.hash_block,
            &self.salt,
            &mut self.levels,
            &mut self.root,
            digest,
            out,
        ) {
            Ok(()) => {
                self.left -= 1;
                Ok(())
            }
            Err(refused) => {
                self.refused = Some(refused);
                Err(refused)
            }
        }
    }

    /// The next digests, in order, as by `push`.
    ///
    /// # Errors
    ///
    /// `OutOfMemory` if the allocator refused room for at most eight hash blocks, or did so before.
    pub fn push_many(
        &mut self,
        digests: &[Digest],
        out: &mut Vec<Placed>,
    ) -> Result<(), OutOfMemory>
        requires { self.old.failed ≡ false → length digests.now ≤ self.old.left }
        ensures ok { OnOk result (Pushes self.old digests.now self.new out.old.items out.new.items) }
        ensures err { OnErr result (FailsToPush self.old self.new) }
        ensures some { HasSome out.old.items (completed self.old digests.now) out.new.items }
        ensures failed { self.old.failed ≡ true → (is_err result ≡ true) × (out.new.items ≡ out.old.items) }
    {
        match self.refused {
            Some(refused) => return Err(refused),
            None => {}
        }
        let mut done = 0;
        while done < digests.len() {
            done += self.push_next(&digests[done..], out)?;
        }
        Ok(())
    }

    /// The end: `out` gets the blocks that were begun. Gives the root.
    ///
    /// # Errors
    ///
    /// `OutOfMemory` if the allocator refused room for a hash block, or did so before.
    pub fn finish(self, out: &mut Vec<Placed>) -> Result<Digest, OutOfMemory>
        requires { self.failed ≡ false → self.left ≡ 0 }
        ensures root { IfOk result (λ r. r ≡ built_root self) }
        ensures out { OnOk result (out.new.items ≡ out.old.items ++ last_completed self) }
        ensures some { HasSome out.old.items (last_completed self) out.new.items }
        ensures failed { self.failed ≡ true → (is_err result ≡ true) × (out.new.items ≡ out.old.items) }
        ensures err { OnErr result (self.failed ≡ false → IsOutOfMemory (builder_room self)) }
    {
        match self.refused {
            Some(refused) => return Err(refused),
            None => {}
        }
        let mut levels = self.levels;
        let root = close_up(
            self.hash_block,
            &self.salt,
            &mut levels,
            self.root,
            None,
            out,
        )?;
        Ok(root)
    }
}

/// The levels of a shape, without a digest.
fn begun_levels(alloc: Global, shape: &Shape) -> Result<Vec<Level>, OutOfMemory>
    requires { IsShape shape.now }
    ensures ok { IfOk result (λ v. v.items ≡ begun_levels shape.now 0 (levels shape.now)) }
    ensures err { OnErr result (IsOutOfMemory 14) }
{
    let count = shape.levels();
    let mut levels = with_capacity(alloc, count as usize)?;
    for level in 0..count {
        let begun = Level {
            next: shape.position(level, 0),
            bytes: Vec::new(alloc),
        };
        push(&mut levels, begun)?;
    }
    Ok(levels)
}

/// A digest comes to the lowest of these levels; a full block is put out, and its digest comes to the next level.
fn rise(
    hash_block: usize,
    salt: &Salt,
    levels: &mut [Level],
    root: &mut Digest,
    coming: Digest,
    out: &mut Vec<Placed>,
) -> Result<(), OutOfMemory>
    requires { All (λ l. l.next < 2 ^ 63) levels.old }
    ensures levels { OnOk result (levels.new ≡ (grow hash_block salt.now levels.old root.old coming).levels) }
    ensures root { OnOk result (root.new ≡ (grow hash_block salt.now levels.old root.old coming).root) }
    ensures out { OnOk result (out.new.items ≡ out.old.items ++ (grow hash_block salt.now levels.old root.old coming).placed) }
    ensures some { HasSome out.old.items (grow hash_block salt.now levels.old root.old coming).placed out.new.items }
    ensures err { OnErr result (IsOutOfMemory (block_room hash_block)) }
{
    let Some((level, above)) = levels.split_first_mut() else {
        *root = coming;
        return Ok(());
    };
    append(&mut level.bytes, &coming, hash_block)?;
    if level.bytes.len() < hash_block {
        return Ok(());
    }
    let alloc = *out.allocator();
    let bytes = mem::replace(&mut level.bytes, Vec::new(alloc));
    let next = salt.digest(&bytes);
    let block = level.next;
    level.next += 1;
    push(out, Placed { block, bytes })?;
    rise(hash_block, salt, above, root, next, out)
}

/// What is begun on these levels is put out, filled with zeros; gives the root.
fn close_up(
    hash_block: usize,
    salt: &Salt,
    levels: &mut [Level],
    root: Digest,
    coming: Option<Digest>,
    out: &mut Vec<Placed>,
) -> Result<Digest, OutOfMemory>
    ensures root { IfOk result (λ r. r ≡ (close hash_block salt.now levels.old root coming).root) }
    ensures out { OnOk result (out.new.items ≡ out.old.items ++ (close hash_block salt.now levels.old root coming).placed) }
    ensures some { HasSome out.old.items (close hash_block salt.now levels.old root coming).placed out.new.items }
    ensures err { OnErr result (IsOutOfMemory (block_room hash_block)) }
{
    let Some((level, above)) = levels.split_first_mut() else {
        return Ok(coming.unwrap_or(root));
    };
    let alloc = *out.allocator();
    let mut bytes = mem::replace(&mut level.bytes, Vec::new(alloc));
    extend(&mut bytes, coming, hash_block)?;
    if bytes.is_empty() {
        return close_up(hash_block, salt, above, root, None, out);
    }
    fill(&mut bytes, hash_block)?;
    let next = salt.digest(&bytes);
    let placed = Placed {
        block: level.next,
        bytes,
    };
    push(out, placed)?;
    close_up(hash_block, salt, above, root, Some(next), out)
}
