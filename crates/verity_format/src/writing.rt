//! A tree that is written while it is built.
ghost use Rattle.std.specs.Prelude.{OnOk, OnErr, IfOk, IfErr, is_ok};
ghost use Rattle.block_device.specs.Call.{DeviceDoes};
ghost use Rattle.block_device.specs.Device.{HasFailed};
ghost use Rattle.verity_format.specs.Handing.{HandsBlocks, HandsTreeOver};
ghost use Rattle.verity_format.specs.Premises.{CanPutBlocks, CanWriteTree};
ghost use Rattle.verity_format.specs.Writing.{AreBlocksWritten, FailsToWrite, MovesTree, WritesTree, WritesWithin};

use crate::access::TreeFault;
use crate::growth::{RUN, take_run};
use allocation::zeros;
use block_device::{BlockDev, DeviceFault};
use hash_tree::{LevelBuilder, Placed};
use std::alloc::Global;
use tree_shape::{Digest, Salt, Shape};

/// Writes the blocks, each at its offset.
fn write_blocks<H: BlockDev>(
    hash_dev: &mut H,
    size: usize,
    blocks: &[Placed],
) -> Result<(), DeviceFault>
    requires { CanPutBlocks (H.state hash_dev.old) size blocks.now }
    ensures part { WritesWithin H.state size blocks.now hash_dev.old hash_dev.new }
    ensures ok { OnOk result (AreBlocksWritten size (H.state hash_dev.old) blocks.now (H.state hash_dev.new)) }
    ensures fault { OnErr result (HasFailed (H.state hash_dev.old) (H.state hash_dev.new)) }
    ensures handed { HandsBlocks (DeviceDoes H.state H.does) size blocks.now hash_dev.old hash_dev.new (is_ok result) }
{
    let sectors = (size / 512) as u64;
    for placed in blocks {
        hash_dev.write(placed.block * sectors, placed.bytes.as_slice())?;
    }
    Ok(())
}

/// Writes the tree over the data device level by level, from its first hash block on, and returns its root hash.
pub(crate) fn write_tree<D: BlockDev, H: BlockDev>(
    alloc: Global,
    data_dev: &mut D,
    hash_dev: &mut H,
    shape: &Shape,
    salt: &Salt,
) -> Result<Digest, TreeFault>
    requires { CanWriteTree shape.now (D.state data_dev.old) (H.state hash_dev.old) }
    ensures devices { MovesTree D.state H.state shape.now data_dev.old hash_dev.old data_dev.new hash_dev.new }
    ensures written { IfOk result (WritesTree D.state H.state shape.now salt.now data_dev.old hash_dev.old data_dev.new hash_dev.new) }
    ensures fault { IfErr result (FailsToWrite D.state H.state data_dev.old hash_dev.old data_dev.new hash_dev.new) }
    ensures handed { HandsTreeOver (DeviceDoes D.state D.does) (DeviceDoes H.state H.does) shape.now salt.now data_dev.old hash_dev.old data_dev.new hash_dev.new result }
{
    let mut memory = zeros(alloc, RUN)?;
    let run = memory.as_mut_slice();
    let size = shape.hash_block() as usize;
    let mut builder = LevelBuilder::new(alloc, *shape, *salt)?;
    while builder.left() > 0 {
        let out = take_run(alloc, data_dev, shape, salt, run, &mut builder)?;
        write_blocks(hash_dev, size, &out)?;
    }
    let mut out = Vec::new(alloc);
    let root = builder.finish(&mut out)?;
    write_blocks(hash_dev, size, &out)?;
    Ok(root)
}
