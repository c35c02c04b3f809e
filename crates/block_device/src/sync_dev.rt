//! A device whose writes can be synced.
ghost use Rattle.std.specs.Prelude.{◌≡◌, is_ok, IsOk, IsTrue, OnErr, OnOk};
ghost use Rattle.block_device.specs.Call.{DeviceDoes, Sync};
ghost use Rattle.block_device.specs.Calls.{DeviceFailsToSync, DeviceSyncs};

use crate::{BlockDev, DeviceFault};

/// A device whose writes can be synced.
pub trait SyncDev: BlockDev {
    /// Whether anything was written, also by a call that failed, since the last sync that ended well.
    fn is_dirty(&self) -> bool
        ensures { result ≡ (Self.state self.now).dirty };

    /// Syncs all writes so far. No write is durable for certain before this returned Ok.
    fn sync(&mut self) -> Result<(), DeviceFault>
        ensures ok { OnOk result (DeviceSyncs Self.state self.old self.new) }
        ensures err { OnErr result (DeviceFailsToSync Self.state self.old self.new) }
        ensures call { DeviceDoes Self.state Self.does self.old (Sync (is_ok result)) self.new }
        ensures sure { IsTrue (Self.state self.old).never_fails → IsOk result };
}
