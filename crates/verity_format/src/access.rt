//! Reading blocks from a device, and computing their digests.
ghost use Rattle.std.specs.Prelude.{◌≡◌, ◌*◌, ◌/◌, ◌^◌, ◌≤◌, OnOk, OnErr, is_ok, length};
ghost use Rattle.std.specs.Str.{bytes_eq};
ghost use Rattle.block_device.specs.Call.{DeviceDoes, Read};
ghost use Rattle.block_device.specs.Device.{HasFailed};
ghost use Rattle.verity_format.specs.Blocks.{IsOnlyRead, ReadsBlock};
ghost use Rattle.verity_format.specs.Image.{data_sectors, tree_sectors, image_sectors};
ghost use Rattle.verity_format.specs.Access.{IsDigestRun};
ghost use Rattle.verity_format.specs.Handing.{GivesDigests};
ghost use Rattle.verity_format.specs.Premises.{IsBlockOn, IsRunOn};

use allocation::OutOfMemory;
use block_device::{BlockDev, DeviceFault};
use hash_tree::digest_blocks;
use tree_shape::{Digest, Salt, Shape};

/// Why no tree was computed over a device's blocks.
#[derive(Clone, Copy, Debug, PartialEq, Eq)]
pub(crate) enum TreeFault {
    /// The device failed.
    Device,
    /// An allocation failed.
    NoMemory,
}

impl From<DeviceFault> for TreeFault {
    ghost use Rattle.verity_format.specs.declared.access.TreeFault.TheVariants.{Device as DeviceFailed};

    ghost from_gives = { λ _ e. e ≡ DeviceFailed };

    fn from(_fault: DeviceFault) -> TreeFault {
        TreeFault::Device
    }
}

impl From<OutOfMemory> for TreeFault {
    ghost use Rattle.verity_format.specs.declared.access.TreeFault.TheVariants.{NoMemory};

    ghost from_gives = { λ _ e. e ≡ NoMemory };

    fn from(_error: OutOfMemory) -> TreeFault {
        TreeFault::NoMemory
    }
}

/// Returns the number of sectors of the data blocks.
pub fn data_sectors(shape: &Shape) -> u64
    ensures value { result ≡ data_sectors shape.now }
    ensures small { result ≤ 2 ^ 54 }
{
    shape.blocks() * u64::from(shape.data_block() / 512)
}

/// Returns the number of sectors of the hash device up to the end of the tree, or 0 if the tree has no block.
pub fn tree_sectors(shape: &Shape) -> u64
    ensures value { result ≡ tree_sectors shape.now }
    ensures small { result ≤ 2 ^ 54 }
{
    shape.area_end() * u64::from(shape.hash_block() / 512)
}

/// Returns the number of sectors of hash block 0 and the tree.
pub fn image_sectors(shape: &Shape) -> u64
    ensures { result ≡ image_sectors shape.now }
{
    let sectors = u64::from(shape.hash_block() / 512);
    (1 + shape.area_blocks()) * sectors
}

/// Returns whether two digests are equal.
pub fn is_same(a: &Digest, b: &Digest) -> bool
    ensures { result ≡ bytes_eq a.now b.now }
{
    a == b
}

/// Reads block `index` of the size of `block`.
#[tactic(auto, unfolding(crate::specs::Blocks::block_at))]
pub(crate) fn read_block<D: BlockDev>(
    device: &mut D,
    index: u64,
    block: &mut [u8],
) -> Result<(), DeviceFault>
    requires { IsBlockOn (D.state device.old) (length block.old) index }
    ensures read { IsOnlyRead (D.state device.old) (D.state device.new) }
    ensures ok { OnOk result (ReadsBlock D.state device.old device.new index block.old block.new) }
    ensures call { DeviceDoes D.state D.does device.old (Read (index * (length block.old / 512)) block.new (is_ok result)) device.new }
    ensures fault { OnErr result (HasFailed (D.state device.old) (D.state device.new)) }
{
    let sectors = (block.len() / 512) as u64;
    device.read(index * sectors, block)?;
    Ok(())
}

/// Reads blocks of `size` bytes from block `index` on into `run` and writes their digests to `digests`.
pub(crate) fn read_run<D: BlockDev>(
    device: &mut D,
    salt: &Salt,
    size: usize,
    index: u64,
    run: &mut [u8],
    digests: &mut [Digest],
) -> Result<(), DeviceFault>
    requires { IsRunOn (D.state device.old) size index (length digests.old) (length run.old) }
    ensures read { IsOnlyRead (D.state device.old) (D.state device.new) }
    ensures ok { OnOk result (IsDigestRun (D.state device.old) salt.now size index digests.new (D.state device.new)) }
    ensures fault { OnErr result (HasFailed (D.state device.old) (D.state device.new)) }
    ensures given { GivesDigests (DeviceDoes D.state D.does) salt.now size index device.old device.new digests.new (is_ok result) }
{
    device.read(index * (size / 512) as u64, run)?;
    digest_blocks(salt, size, run, digests);
    Ok(())
}
