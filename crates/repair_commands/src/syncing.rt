//! Syncs both devices after a repair.
ghost use Rattle.std.specs.Prelude.{◌≡◌, ◌≤◌, false, IfErr, IsTrue, OnErr, OnOk};
ghost use Rattle.block_device.specs.Device.{IsUnsynced};
ghost use Rattle.repair_commands.specs.Mends.{IsOnMedium, IsUnsyncedCause, KeepsBothImages, KeepsImage, end_of};

use block_device::{BlockDev, DeviceFault, SyncDev};
use tree_repair::{DamagedImage, Outcome, RepairFault};

/// Syncs both devices, the second even if the sync of the first failed.
pub(crate) fn sync_both<D: SyncDev, H: SyncDev, C: BlockDev>(
    image: &mut DamagedImage<D, H, C>,
    write: bool,
) -> Result<(), RepairFault>
    ensures kept { KeepsBothImages image.old.world image.new.world }
    ensures ok { OnOk result (IsOnMedium write image.new.world.data_dev image.new.world.hash_dev) }
    ensures err { IfErr result (IsUnsyncedCause write image.old.world image.new.world) }
{
    let data_synced = sync_one(&mut image.data, write);
    let hash_synced = sync_one(&mut image.hash, write);
    data_synced?;
    hash_synced?;
    Ok(())
}

/// Returns what is reported of a repair and the sync after it. A failed writer doesn't end a repair, so a failed sync takes
/// precedence over it.
pub(crate) fn end_of(
    ended: Result<Outcome, RepairFault>,
    synced: Result<(), RepairFault>,
) -> Result<Outcome, RepairFault>
    ensures { result ≡ end_of ended synced }
{
    let Err(unsynced) = synced else {
        return ended;
    };
    match ended {
        Ok(_) => Err(unsynced),
        Err(RepairFault::Write) => Err(unsynced),
        Err(RepairFault::Image(fault)) => Err(RepairFault::Image(fault)),
    }
}

// Syncs a device if the repair may have written to it.
fn sync_one<D: SyncDev>(device: &mut D, write: bool) -> Result<(), DeviceFault>
    ensures kept { KeepsImage (D.state device.old) (D.state device.new) }
    ensures ok { OnOk result (IsTrue write → (D.state device.new).dirty ≡ false) }
    ensures err { OnErr result (IsTrue write × IsUnsynced (D.state device.old) (D.state device.new)) }
    ensures counted { (D.state device.old).failures ≤ (D.state device.new).failures }
{
    if !write {
        return Ok(());
    }
    device.sync()
}
