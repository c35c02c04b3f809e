//! Reads and digests data blocks in large pieces.
ghost use Rattle.std.specs.Prelude.{◌≡◌, ◌≤◌, ◌<◌, ◌*◌, IfErr, IfOk, length, take};
ghost use Rattle.allocation.specs.Asked.{WasRefused};
ghost use Rattle.verity_format.specs.Premises.{IsBlockOn};
ghost use Rattle.tree_survey.specs.Failing.{IsReadOver};
ghost use Rattle.tree_survey.specs.Pieces.{IsDigestFound, IsDigestRead, LieOnDevice, IsRunTried, blocks_of};

use crate::attempt::{attempt, read_block};
use allocation::{OutOfMemory, filled, zeros};
use block_device::BlockDev;
use hash_tree::digest_blocks;
use std::alloc::Global;
use tree_shape::{Digest, Salt, Shape};

/// How many bytes one call reads.
const PIECE: usize = 1 << 16;

/// Returns a buffer for a piece.
///
/// # Errors
///
/// `OutOfMemory` if the allocator refused it.
pub(crate) fn piece_room(alloc: Global) -> Result<Vec<u8>, OutOfMemory>
    ensures ok { IfOk result (λ v. length v.items ≡ 65536) }
    ensures err { IfErr result (WasRefused 65536) }
{
    let room = zeros(alloc, PIECE)?;
    Ok(room)
}

/// Returns a buffer for the digests of a piece of the smallest blocks.
///
/// # Errors
///
/// `OutOfMemory` if the allocator refused it.
pub(crate) fn digest_room(alloc: Global) -> Result<Vec<Digest>, OutOfMemory>
    ensures ok { IfOk result (λ v. length v.items ≡ 128) }
    ensures err { IfErr result (WasRefused 128) }
{
    let room = filled(alloc, PIECE / 512, Digest::new([0; Digest::SIZE]))?;
    Ok(room)
}

/// Returns how many data blocks from `first` on make up a piece: as many as fit, or all that are left.
pub(crate) fn blocks_of(shape: &Shape, first: u64) -> usize
    requires { first < shape.now.blocks }
    ensures { result ≡ blocks_of shape.now first }
{
    let size = shape.data_block() as usize;
    let left = shape.blocks() - first;
    (PIECE / size).min(left as usize)
}

/// Reads `count` blocks of `size` bytes from block `first` on, and stores their digests. Returns whether the blocks could be
/// read.
pub(crate) fn read_piece<D: BlockDev>(
    device: &mut D,
    salt: &Salt,
    size: usize,
    first: u64,
    count: usize,
    piece: &mut [u8],
    digests: &mut [Digest],
) -> bool
    requires run { LieOnDevice (D.state device.old) size first count (count * size) }
    requires room { count * size ≤ length piece.old }
    requires few { count ≤ length digests.old }
    ensures over { IsReadOver (D.state device.old) (D.state device.new) }
    ensures ends { IsRunTried (D.state device.old) salt.now size first (take count digests.new) result (D.state device.new) }
{
    let run = &mut piece[..count * size];
    let found = &mut digests[..count];
    read_run(device, salt, size, first, run, found)
}

// Reads the blocks that fill `run`, and stores their digests. Returns whether the blocks could be read.
fn read_run<D: BlockDev>(
    device: &mut D,
    salt: &Salt,
    size: usize,
    first: u64,
    run: &mut [u8],
    digests: &mut [Digest],
) -> bool
    requires { LieOnDevice (D.state device.old) size first (length digests.old) (length run.old) }
    ensures over { IsReadOver (D.state device.old) (D.state device.new) }
    ensures ends { IsRunTried (D.state device.old) salt.now size first digests.new result (D.state device.new) }
{
    if !attempt(device, first * (size / 512) as u64, run) {
        return false;
    }
    digest_blocks(salt, size, run, digests);
    true
}

/// Returns the digest of a block: `known` if its piece was read whole. Otherwise the block is read alone; `None` if it can't be
/// read.
pub(crate) fn digest_of<D: BlockDev>(
    device: &mut D,
    salt: &Salt,
    size: usize,
    index: u64,
    whole: bool,
    known: &Digest,
    piece: &mut [u8],
) -> Option<Digest>
    requires run { IsBlockOn (D.state device.old) size index }
    requires room { size ≤ length piece.old }
    ensures over { IsReadOver (D.state device.old) (D.state device.new) }
    ensures ends { IsDigestFound (D.state device.old) salt.now size index known.now whole result (D.state device.new) }
{
    if whole {
        return Some(*known);
    }
    read_digest(device, salt, index, &mut piece[..size])
}

// Reads a block as long as `block`, and returns its digest. `None` if the block can't be read.
fn read_digest<D: BlockDev>(
    device: &mut D,
    salt: &Salt,
    index: u64,
    block: &mut [u8],
) -> Option<Digest>
    requires { IsBlockOn (D.state device.old) (length block.old) index }
    ensures over { IsReadOver (D.state device.old) (D.state device.new) }
    ensures ends { IsDigestRead (D.state device.old) salt.now (length block.old) index result (D.state device.new) }
{
    if !read_block(device, index, block) {
        return None;
    }
    Some(salt.digest(block))
}
