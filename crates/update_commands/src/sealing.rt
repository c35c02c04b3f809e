//! The end of an update: the superblock is written.
ghost use Rattle.std.specs.Prelude.{◌≡◌, ◌≤◌, ◌++◌, OnErr, OnOk, drop, length, replicate};
ghost use Rattle.verity_format.specs.Image.{first_block};
ghost use Rattle.update_commands.specs.Seals.{IsSealed, IsUnsealed};

use block_device::{DeviceFault, SyncDev};
use verity_format::Superblock;

/// Writes hash block 0, the superblock and zeros after it, by one call, and syncs the device. A device that is shorter or may not be
/// written is refused.
pub(crate) fn seal<H: SyncDev>(hash_dev: &mut H, superblock: &Superblock) -> Result<(), DeviceFault>
    ensures ok { OnOk result (IsSealed superblock.now (H.state hash_dev.old) (H.state hash_dev.new)) }
    ensures err { OnErr result (IsUnsealed superblock.now (H.state hash_dev.old) (H.state hash_dev.new)) }
{
    let mut memory = [0u8; 4096];
    seal_from(hash_dev, superblock, &mut memory)
}

// Does that with zeros of the size of the largest hash block as memory.
fn seal_from<H: SyncDev>(
    hash_dev: &mut H,
    superblock: &Superblock,
    memory: &mut [u8],
) -> Result<(), DeviceFault>
    requires { memory.old ≡ replicate 4096 0 }
    ensures ok { OnOk result (IsSealed superblock.now (H.state hash_dev.old) (H.state hash_dev.new)) }
    ensures err { OnErr result (IsUnsealed superblock.now (H.state hash_dev.old) (H.state hash_dev.new)) }
{
    let shape = superblock.shape();
    let size = shape.hash_block() as usize;
    let sectors = hash_dev.sectors();
    if sectors < (size / 512) as u64 {
        return Err(DeviceFault);
    }
    if !hash_dev.writable() {
        return Err(DeviceFault);
    }
    let block = &mut memory[..size];
    put_superblock(superblock, block);
    hash_dev.write(0, block)?;
    hash_dev.sync()
}

// Writes the superblock to the beginning of zeros of the size of a hash block.
fn put_superblock(superblock: &Superblock, block: &mut [u8])
    requires { block.old ≡ replicate superblock.now.hash_block 0 }
    ensures { block.new ≡ first_block superblock.now }
{
    let _shape = superblock.shape();
    let sector = superblock.encode();
    put_first(block, &sector);
}

// Writes bytes to the beginning of others.
fn put_first(bytes: &mut [u8], part: &[u8])
    requires { length part.now ≤ length bytes.old }
    ensures { bytes.new ≡ part.now ++ drop (length part.now) bytes.old }
{
    bytes[..part.len()].copy_from_slice(part);
}
