//! Syncs the leaves.
ghost use Rattle.std.specs.Prelude.{◌≡◌, ◌≤◌, IsOk, IsTrue, OnErr, OnOk, IfErr, is_ok, length, map};
ghost use Rattle.block_device.specs.Call.{DeviceDoes, Sync};
ghost use Rattle.block_device.specs.Device.{IsUnsynced, synced};
ghost use Rattle.stack_engine.specs.LeafCalls.{MakesCalls};
ghost use Rattle.stack_engine.specs.Syncs.{AreSyncCalls, CallsIf, FailsToSync};

use block_device::{DeviceFault, SyncDev};
use stack_meaning::IoFault;

/// Syncs each dirty leaf, in order up to the first of which that fails.
pub(crate) fn sync_leaves<D: SyncDev>(devices: &mut [D]) -> Result<(), IoFault>
    requires { length devices.old ≤ 64 }
    ensures ok { OnOk result (map D.state devices.new ≡ map synced (map D.state devices.old)) }
    ensures err { IfErr result (FailsToSync (map D.state devices.old) (map D.state devices.new)) }
    ensures called { MakesCalls (DeviceDoes D.state D.does) (AreSyncCalls (map D.state devices.old) result) devices.old devices.new }
{
    'leaves: for i in 0..devices.len() {
        match sync_leaf(&mut devices[i]) {
            Ok(()) => {}
            Err(_) => return Err(IoFault::Device(i as u32 + 1)),
        }
    }
    Ok(())
}

// Syncs a device if it is dirty.
fn sync_leaf<D: SyncDev>(device: &mut D) -> Result<(), DeviceFault>
    ensures ok { OnOk result (D.state device.new ≡ synced (D.state device.old)) }
    ensures err { OnErr result (IsUnsynced (D.state device.old) (D.state device.new)) }
    ensures dirty { OnErr result (IsTrue (D.state device.old).dirty) }
    ensures sure { IsTrue (D.state device.old).never_fails → IsOk result }
    ensures called { CallsIf (DeviceDoes D.state D.does) (D.state device.old).dirty device.old (Sync (is_ok result)) device.new }
{
    if !device.is_dirty() {
        return Ok(());
    }
    device.sync()
}
