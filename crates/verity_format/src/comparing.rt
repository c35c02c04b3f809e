//! Comparing hash blocks with those stored on a device.
ghost use Rattle.std.specs.Prelude.{◌≡◌, OnErr, IfOk, IfErr, length};
ghost use Rattle.block_device.specs.Call.{DeviceDoes};
ghost use Rattle.block_device.specs.Device.{HasFailed};
ghost use Rattle.hash_tree.specs.Placing.{lesser};
ghost use Rattle.verity_format.specs.Blocks.{IsOnlyRead, OnlyReads};
ghost use Rattle.verity_format.specs.ComparedCalls.{ComparesBlocks, ComparesOver};
ghost use Rattle.verity_format.specs.Comparing.{ComparesPlaced, ComparesTree};
ghost use Rattle.verity_format.specs.Growth.{FailsOnEither};
ghost use Rattle.verity_format.specs.Premises.{AreBlocksOn, HaveTree};

use crate::access::{TreeFault, read_block};
use crate::growth::{RUN, take_run};
use allocation::zeros;
use block_device::{BlockDev, DeviceFault};
use hash_tree::{LevelBuilder, Placed};
use std::alloc::Global;
use tree_shape::{Digest, Salt, Shape};

/// Returns the smaller of the two numbers.
fn lesser(least: Option<u64>, block: u64) -> u64
    ensures { result ≡ lesser least block }
{
    match least {
        Some(n) if n <= block => n,
        _ => block,
    }
}

/// Compares blocks with those stored on the device, which are read into `block`. Returns the smallest number of a
/// block that differs, including `least`.
fn compare_blocks<H: BlockDev>(
    hash_dev: &mut H,
    blocks: &[Placed],
    block: &mut [u8],
    least: Option<u64>,
) -> Result<Option<u64>, DeviceFault>
    requires { AreBlocksOn (H.state hash_dev.old) (length block.old) blocks.now }
    ensures read { IsOnlyRead (H.state hash_dev.old) (H.state hash_dev.new) }
    ensures ok { IfOk result (ComparesPlaced H.state hash_dev.old hash_dev.new (length block.old) blocks.now least) }
    ensures fault { OnErr result (HasFailed (H.state hash_dev.old) (H.state hash_dev.new)) }
    ensures calls { ComparesBlocks (DeviceDoes H.state H.does) (length block.old) blocks.now least hash_dev.old hash_dev.new result }
{
    let mut least = least;
    for placed in blocks {
        read_block(hash_dev, placed.block, block)?;
        if &block[..] != placed.bytes.as_slice() {
            least = Some(lesser(least, placed.block));
        }
    }
    Ok(least)
}

/// Returns the first hash block that differs from the tree over the data device, and the root hash of that tree. The
/// tree is built and compared level by level.
pub(crate) fn compare_tree<D: BlockDev, H: BlockDev>(
    alloc: Global,
    data_dev: &mut D,
    hash_dev: &mut H,
    shape: &Shape,
    salt: &Salt,
) -> Result<(Option<u64>, Digest), TreeFault>
    requires { HaveTree shape.now (D.state data_dev.old) (H.state hash_dev.old) }
    ensures read { OnlyReads D.state H.state data_dev.old hash_dev.old data_dev.new hash_dev.new }
    ensures compared { IfOk result (λ r. ComparesTree D.state H.state shape.now salt.now data_dev.old hash_dev.old data_dev.new hash_dev.new r.0 r.1) }
    ensures fault { IfErr result (FailsOnEither D.state H.state data_dev.old hash_dev.old data_dev.new hash_dev.new) }
    ensures calls { ComparesOver (DeviceDoes D.state D.does) (DeviceDoes H.state H.does) shape.now salt.now data_dev.old hash_dev.old data_dev.new hash_dev.new result }
{
    let mut memory = zeros(alloc, RUN)?;
    let mut block_memory = zeros(alloc, shape.hash_block() as usize)?;
    let run = memory.as_mut_slice();
    let block = block_memory.as_mut_slice();
    let mut builder = LevelBuilder::new(alloc, *shape, *salt)?;
    let mut least = None;
    while builder.left() > 0 {
        let out = take_run(alloc, data_dev, shape, salt, run, &mut builder)?;
        least = compare_blocks(hash_dev, &out, block, least)?;
    }
    let mut out = Vec::new(alloc);
    let root = builder.finish(&mut out)?;
    let least = compare_blocks(hash_dev, &out, block, least)?;
    Ok((least, root))
}
