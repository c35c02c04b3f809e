//! A device that writes only blocks that differ.
ghost use Rattle.std.specs.Prelude.{◌≡◌, ◌+◌, false, length, is_ok, IsOk, IsTrue, OnErr, OnOk};
ghost use Rattle.block_device.specs.Call.{DeviceDoes, Sync, Write};
ghost use Rattle.block_device.specs.Calls.{DeviceFails, DeviceFailsToSync, DevicePuts, DeviceSyncs, DeviceWrites, SyncsInner};
ghost use Rattle.block_device.specs.Counters.{capped-fits};
ghost use Rattle.block_device.specs.Device.{IsInside, capped};
ghost use Rattle.device_adapters.specs.DifferingCalls.{DifferingDoes, LeavesStanding};
ghost use Rattle.device_adapters.specs.Differing.{differing};

use crate::put::put_blocks;
use block_device::{BlockDev, DeviceFault, SyncDev};

/// A device that splits a write into blocks of 4,096 bytes, reads each block before it writes it, and doesn't write a block
/// that has its new contents already. A sparse file stays sparse. The counters of this device are of the sectors requested;
/// those of the inner device are of the sectors read and written.
#[derive(Drop)]
pub struct Differing<D> {
    /// The inner device.
    pub inner: D,
    /// The sectors requested.
    pub reads: u64,
    pub writes: u64,
    /// Whether a write was requested since the last successful sync.
    pub dirty: bool,
}

impl<D> Differing<D> {
    /// Returns a device without requests.
    pub fn new(inner: D) -> Differing<D>
        ensures { result ≡ record { inner = inner; reads = 0; writes = 0; dirty = false } }
    {
        Differing {
            inner,
            reads: 0,
            writes: 0,
            dirty: false,
        }
    }
}

impl<D: BlockDev> BlockDev for Differing<D> {
    ghost state = { λ d. differing (D.state d.inner) (capped d.reads) (capped d.writes) d.dirty };

    ghost gives = { λ d first bytes. D.gives d.inner first bytes };

    ghost does = { λ old call new. DifferingDoes (DeviceDoes D.state D.does) old.inner call new.inner };

    ghost whole = { λ d. record { length = (D.whole d.inner).length; sectors = (D.whole d.inner).sectors } };

    ghost counters = { λ d. record { reads = capped-fits d.reads; writes = capped-fits d.writes; failures = (D.counters d.inner).failures } };

    fn sectors(&self) -> u64 {
        self.inner.sectors()
    }

    fn writable(&self) -> bool {
        self.inner.writable()
    }

    fn read(&mut self, first: u64, out: &mut [u8]) -> Result<(), DeviceFault> {
        self.reads = self.reads.saturating_add(out.len() as u64 / 512);
        self.inner.read(first, out)
    }

    fn write(&mut self, first: u64, bytes: &[u8]) -> Result<(), DeviceFault>
        requires range { IsInside (⟦<Differing<D> as BlockDev>⟧.state self.old) first (length bytes.now) }
        requires allowed { IsTrue (⟦<Differing<D> as BlockDev>⟧.state self.old).may_write }
        ensures moved { DeviceWrites ⟦<Differing<D> as BlockDev>⟧.state self.old self.new first bytes.now (is_ok result) }
        ensures image { OnOk result (DevicePuts ⟦<Differing<D> as BlockDev>⟧.state self.old self.new first bytes.now) }
        ensures call { DeviceDoes ⟦<Differing<D> as BlockDev>⟧.state ⟦<Differing<D> as BlockDev>⟧.does self.old (Write first bytes.now (is_ok result)) self.new }
        ensures sure { IsTrue (⟦<Differing<D> as BlockDev>⟧.state self.old).never_fails → IsOk result }
        ensures fault { OnErr result (DeviceFails ⟦<Differing<D> as BlockDev>⟧.state self.old self.new) }

        // On a steady device, if all blocks have their new contents already, none is written.
        ensures same { OnOk result (LeavesStanding D.state self.old.inner self.new.inner first bytes.now) }
    {
        self.writes = self.writes.saturating_add(bytes.len() as u64 / 512);
        self.dirty = true;
        put_blocks(&mut self.inner, first, bytes)
    }

    fn reads(&self) -> u64 {
        self.reads
    }

    fn writes(&self) -> u64 {
        self.writes
    }

    fn failures(&self) -> u64 {
        self.inner.failures()
    }

    fn lacked_space(&self) -> bool {
        self.inner.lacked_space()
    }
}

impl<D: SyncDev> SyncDev for Differing<D> {
    fn is_dirty(&self) -> bool {
        self.dirty
    }

    fn sync(&mut self) -> Result<(), DeviceFault>
        ensures ok { OnOk result (DeviceSyncs ⟦<Differing<D> as BlockDev>⟧.state self.old self.new) }
        ensures err { OnErr result (DeviceFailsToSync ⟦<Differing<D> as BlockDev>⟧.state self.old self.new) }
        ensures call { DeviceDoes ⟦<Differing<D> as BlockDev>⟧.state ⟦<Differing<D> as BlockDev>⟧.does self.old (Sync (is_ok result)) self.new }
        ensures sure { IsTrue (⟦<Differing<D> as BlockDev>⟧.state self.old).never_fails → IsOk result }

        // It is one sync of the inner device.
        ensures inner { SyncsInner D.state self.old.inner self.new.inner (is_ok result) }
    {
        self.inner.sync()?;
        self.dirty = false;
        Ok(())
    }
}
