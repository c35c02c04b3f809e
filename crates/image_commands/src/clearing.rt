//! A superblock of an earlier format, cleared before the tree beneath it changes.
ghost use Rattle.std.specs.Prelude.{◌≡◌, ◌<◌, IsTrue, OnErr, OnOk, is_ok};
ghost use Rattle.block_device.specs.Call.{DeviceDoes};
ghost use Rattle.image_commands.specs.Clearing.{HandsClearing, IsCleared, IsUncleared};

use block_device::{DeviceFault, SyncDev};

const SIGNATURE: &[u8] = b"verity\0\0";

/// Writes zeros over the first sector if it begins as a superblock does, and syncs the device in both cases: zeros of an earlier
/// run that was killed may not be durable yet. So if the tree is written only in part after it, no superblock precedes that part.
///
/// # Errors
///
/// `DeviceFault` if a call of the device failed.
pub fn clear_superblock<H: SyncDev>(hash_dev: &mut H) -> Result<(), DeviceFault>
    requires some { 0 < (H.state hash_dev.old).size }
    requires allowed { IsTrue (H.state hash_dev.old).may_write }
    ensures ok { OnOk result (IsCleared (H.state hash_dev.old) (H.state hash_dev.new)) }
    ensures err { OnErr result (IsUncleared (H.state hash_dev.old) (H.state hash_dev.new)) }
    ensures handed { HandsClearing (DeviceDoes H.state H.does) hash_dev.old hash_dev.new (is_ok result) }
{
    let mut sector = [0u8; 512];
    hash_dev.read(0, &mut sector)?;
    if &sector[..8] != SIGNATURE {
        return hash_dev.sync();
    }
    hash_dev.write(0, &[0u8; 512])?;
    hash_dev.sync()
}
