//! Writes both ends of a disk.
ghost use Rattle.std.specs.Prelude.{◌≡◌, IsTrue, OnErr, OnOk, length};
ghost use Rattle.block_device.specs.Device.{HasFailed, IsInside};
ghost use Rattle.disk_layout.specs.Writing.{PutsEnds, PutsSynced};

use block_device::{DeviceFault, SyncDev};

/// Writes the end of a disk from sector `last` of 512 bytes on, and syncs it; and then the beginning. So a disk whose beginning is
/// written has a complete backup.
///
/// # Errors
///
/// `DeviceFault` if the device failed. Nothing is written after the first failure.
pub fn write_ends<D: SyncDev>(
    device: &mut D,
    front: &[u8],
    last: u64,
    back: &[u8],
) -> Result<(), DeviceFault>
    requires ends { IsInside (D.state device.old) 0 (length front.now) × IsInside (D.state device.old) last (length back.now) }
    requires allowed { IsTrue (D.state device.old).may_write }
    ensures ok { OnOk result (PutsEnds (D.state device.old) front.now last back.now (D.state device.new)) }
    ensures err { OnErr result (HasFailed (D.state device.old) (D.state device.new)) }
{
    put_synced(device, last, back)?;
    put_synced(device, 0, front)
}

// Writes bytes, and syncs them.
fn put_synced<D: SyncDev>(device: &mut D, first: u64, bytes: &[u8]) -> Result<(), DeviceFault>
    requires range { IsInside (D.state device.old) first (length bytes.now) }
    requires allowed { IsTrue (D.state device.old).may_write }
    ensures ok { OnOk result (PutsSynced (D.state device.old) first bytes.now (D.state device.new)) }
    ensures err { OnErr result (HasFailed (D.state device.old) (D.state device.new)) }
{
    device.write(first, bytes)?;
    device.sync()
}
