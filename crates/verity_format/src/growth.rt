//! A tree that is built from a device's data blocks, run by run.
ghost use Rattle.std.specs.Prelude.{IfOk, IfErr, length};
ghost use Rattle.block_device.specs.Call.{DeviceDoes};
ghost use Rattle.verity_format.specs.Access.{IsTreeCause};
ghost use Rattle.verity_format.specs.Blocks.{IsOnlyRead};
ghost use Rattle.verity_format.specs.Growth.{TakesRun};
ghost use Rattle.verity_format.specs.Handing.{TakesOrAsks};
ghost use Rattle.verity_format.specs.Premises.{CanTake};

use crate::access::{TreeFault, read_run};
use allocation::filled;
use block_device::BlockDev;
use hash_tree::{LevelBuilder, Placed};
use std::alloc::Global;
use tree_shape::{Digest, Salt, Shape};

/// The number of bytes of data that are read in one call.
pub(crate) const RUN: usize = 1 << 16;

/// Reads the next data blocks, as many as fit `run`, and returns the hash blocks that their digests complete.
pub(crate) fn take_run<D: BlockDev>(
    alloc: Global,
    device: &mut D,
    shape: &Shape,
    salt: &Salt,
    run: &mut [u8],
    builder: &mut LevelBuilder,
) -> Result<Vec<Placed>, TreeFault>
    requires { CanTake shape.now (D.state device.old) builder.old (length run.old) }
    ensures read { IsOnlyRead (D.state device.old) (D.state device.new) }
    ensures taken { IfOk result (TakesRun D.state shape.now salt.now device.old device.new builder.old builder.new) }
    ensures fault { IfErr result (λ f. IsTreeCause (D.state device.old) (D.state device.new) f) }
    ensures given { TakesOrAsks (DeviceDoes D.state D.does) shape.now salt.now device.old device.new builder.old builder.new result }
{
    let size = shape.data_block() as usize;
    let left = builder.left();
    let index = shape.blocks() - left;
    let count = (run.len() / size).min(left as usize);
    let mut digests = filled(alloc, count, Digest::new([0; Digest::SIZE]))?;
    read_run(
        device,
        salt,
        size,
        index,
        &mut run[..count * size],
        &mut digests,
    )?;
    let mut out = Vec::new(alloc);
    builder.push_many(&digests, &mut out)?;
    Ok(out)
}
