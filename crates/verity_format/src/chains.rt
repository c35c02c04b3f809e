//! Reading a data block with the hash blocks on its path.
ghost use Rattle.std.specs.Prelude.{◌≡◌, ◌+◌, ◌<◌, ◌≤◌, OnOk, OnErr, IfOk, IfErr, All, is_ok, length};
ghost use Rattle.allocation.specs.Refusal.{IsOutOfMemory};
ghost use Rattle.block_device.specs.Call.{DeviceDoes};
ghost use Rattle.block_device.specs.Device.{HasFailed};
ghost use Rattle.verity_format.specs.Blocks.{BothOnlyRead, IsOnlyRead};
ghost use Rattle.verity_format.specs.Image.{data_sectors, tree_sectors};
ghost use Rattle.verity_format.specs.Chain.{FailsToReadChain, IsStoredChain, ReadsChain, ReadsPath};
ghost use Rattle.verity_format.specs.ChainCalls.{CallsChain, CallsPath};
ghost use Rattle.verity_format.specs.Premises.{IsPathOn};

use crate::access::read_block;
use allocation::{OutOfMemory, push, zeros};
use block_device::{BlockDev, DeviceFault};
use hash_tree::Chain;
use std::alloc::Global;
use thiserror::Error;
use tree_shape::Shape;

/// Why a chain wasn't read.
#[derive(Clone, Copy, Debug, PartialEq, Eq, Error)]
pub enum ChainFault {
    /// One of the two devices failed in the call.
    #[error("Device")]
    Device,
    /// An allocation failed.
    #[error("NoMemory")]
    NoMemory,
}

impl From<DeviceFault> for ChainFault {
    ghost use Rattle.verity_format.specs.declared.chains.ChainFault.TheVariants.{Device as DeviceFailed};

    ghost from_gives = { λ _ e. e ≡ DeviceFailed };

    fn from(_fault: DeviceFault) -> ChainFault {
        ChainFault::Device
    }
}

impl From<OutOfMemory> for ChainFault {
    ghost use Rattle.verity_format.specs.declared.chains.ChainFault.TheVariants.{NoMemory};

    ghost from_gives = { λ _ e. e ≡ NoMemory };

    fn from(_error: OutOfMemory) -> ChainFault {
        ChainFault::NoMemory
    }
}

/// Reads data block `index` and the hash blocks on its path, without verifying them.
///
/// All memory is allocated before the first read.
///
/// # Errors
///
/// - `Device` if one of the two devices fails.
/// - `NoMemory` if an allocation fails; neither device was accessed.
pub fn read_chain<D: BlockDev, H: BlockDev>(
    alloc: Global,
    data_dev: &mut D,
    hash_dev: &mut H,
    shape: &Shape,
    index: u64,
) -> Result<Chain, ChainFault>
    requires index { index < shape.now.blocks }
    requires data_fits { data_sectors shape.now ≤ (D.state data_dev.old).size }
    requires tree_fits { tree_sectors shape.now ≤ (H.state hash_dev.old).size }
    ensures devices { BothOnlyRead D.state H.state data_dev.old hash_dev.old data_dev.new hash_dev.new }
    ensures ok { IfOk result (IsStoredChain D.state H.state shape.now data_dev.old hash_dev.old index) }
    ensures full { OnOk result (ReadsChain D.state H.state shape.now data_dev.old hash_dev.old data_dev.new hash_dev.new) }
    ensures err { IfErr result (FailsToReadChain D.state H.state data_dev.old hash_dev.old data_dev.new hash_dev.new) }
    ensures calls { CallsChain (DeviceDoes D.state D.does) (DeviceDoes H.state H.does) shape.now index data_dev.old hash_dev.old data_dev.new hash_dev.new result }
{
    let mut content = zeros(alloc, shape.data_block() as usize)?;
    let mut path = zero_blocks(alloc, shape.levels(), shape.hash_block() as usize)?;
    read_path(hash_dev, shape, index, &mut path)?;
    read_block(data_dev, index, &mut content)?;
    Ok(Chain {
        index,
        content,
        path,
    })
}

// Returns `count` blocks of zeros of `size` bytes.
fn zero_blocks(alloc: Global, count: u32, size: usize) -> Result<Vec<Vec<u8>>, OutOfMemory>
    ensures count { IfOk result (λ v. length v.items ≡ count) }
    ensures sized { IfOk result (λ v. All (λ b. length b.items ≡ size) v.items) }
    ensures err { OnErr result (IsOutOfMemory (size + 1)) }
{
    let mut blocks = Vec::new(alloc);
    for _ in 0..count {
        let block = zeros(alloc, size)?;
        push(&mut blocks, block)?;
    }
    Ok(blocks)
}

// Reads the hash blocks above a data block, from the top level down.
fn read_path<H: BlockDev>(
    hash_dev: &mut H,
    shape: &Shape,
    index: u64,
    path: &mut [Vec<u8>],
) -> Result<(), DeviceFault>
    requires { IsPathOn shape.now (H.state hash_dev.old) index path.old }
    ensures read { IsOnlyRead (H.state hash_dev.old) (H.state hash_dev.new) }
    ensures ok { OnOk result (ReadsPath H.state shape.now index hash_dev.old hash_dev.new path.new) }
    ensures fault { OnErr result (HasFailed (H.state hash_dev.old) (H.state hash_dev.new)) }
    ensures calls { CallsPath (DeviceDoes H.state H.does) shape.now index hash_dev.old path.new (is_ok result) hash_dev.new }
{
    let mut level = shape.levels();
    for i in 0..path.len() {
        level -= 1;
        let place = shape.position(level, shape.block_on_path(level, index));
        read_block(hash_dev, place, &mut path[i])?;
    }
    Ok(())
}
