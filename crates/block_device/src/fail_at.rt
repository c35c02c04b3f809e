//! A device that fails once.
ghost use Rattle.std.specs.Prelude.{◌≡◌, ◌≢◌, ◌/◌, ◌-◌, false, length, is_ok, IsTrue, IsOk, IsErr, OnOk, OnErr};
ghost use Rattle.block_device.specs.Call.{DeviceDoes, Read, Sync, Write};
ghost use Rattle.block_device.specs.Calls.{DeviceFails, DeviceFailsToSync, DeviceGives, DevicePuts, DeviceReads, DeviceSyncs, DeviceWrites, ReadsInner, SyncsInner, WritesInner};
ghost use Rattle.block_device.specs.Counters.{failing-fits};
ghost use Rattle.block_device.specs.Device.{IsInside};
ghost use Rattle.block_device.specs.Failing.{failing};

use crate::{BlockDev, DeviceFault, SyncDev};

/// One chosen call of read, write or sync fails: it counts one failure and the requested sectors, and the inner
/// device isn't called. Every other call is passed on, and does what the trait promises for the inner device; if that
/// device isn't steady, a read returns bytes that a read of it may return.
#[derive(Drop)]
pub struct FailAt<D> {
    /// The device that all other calls go to.
    pub inner: D,
    /// The number of the call that fails, counted from the next one; 0 if none does.
    pub calls_to_failure: u64,
    /// What this device counts on top of what the inner one does.
    pub sectors_of_failed_reads: u64,
    pub sectors_of_failed_writes: u64,
    pub failed_calls: u64,
    /// A write has failed here since the last sync that ended well.
    pub has_failed_write: bool,
}

impl<D> FailAt<D> {
    /// The `k`-th call fails, and none where `k` is 0.
    pub fn new(inner: D, k: u64) -> FailAt<D>
        ensures { result ≡ record { inner = inner; calls_to_failure = k; sectors_of_failed_reads = 0; sectors_of_failed_writes = 0; failed_calls = 0; has_failed_write = false } }
    {
        FailAt {
            inner,
            calls_to_failure: k,
            sectors_of_failed_reads: 0,
            sectors_of_failed_writes: 0,
            failed_calls: 0,
            has_failed_write: false,
        }
    }
}

impl<D: BlockDev> BlockDev for FailAt<D> {
    ghost state = { λ f. failing (D.state f.inner) f.calls_to_failure f.sectors_of_failed_reads f.sectors_of_failed_writes f.failed_calls f.has_failed_write };

    ghost gives = { λ f first bytes. D.gives f.inner first bytes };

    ghost does = { λ old call new. (old.calls_to_failure ≢ 1 → DeviceDoes D.state D.does old.inner call new.inner) × (old.calls_to_failure ≡ 1 → new.inner ≡ old.inner) };

    ghost whole = { λ f. record { length = (D.whole f.inner).length; sectors = (D.whole f.inner).sectors } };

    ghost counters = { λ f. failing-fits (D.state f.inner) f.calls_to_failure f.sectors_of_failed_reads f.sectors_of_failed_writes f.failed_calls f.has_failed_write };

    fn sectors(&self) -> u64 {
        self.inner.sectors()
    }

    fn writable(&self) -> bool {
        self.inner.writable()
    }

    fn read(&mut self, first: u64, out: &mut [u8]) -> Result<(), DeviceFault>
        requires { IsInside (⟦<FailAt<D> as BlockDev>⟧.state self.old) first (length out.old) }
        ensures moved { DeviceReads ⟦<FailAt<D> as BlockDev>⟧.state self.old self.new out.old (is_ok result) }
        ensures bytes { OnOk result (DeviceGives ⟦<FailAt<D> as BlockDev>⟧.state self.old first out.old out.new) }
        ensures given { OnOk result (⟦<FailAt<D> as BlockDev>⟧.gives self.old first out.new) }
        ensures call { DeviceDoes ⟦<FailAt<D> as BlockDev>⟧.state ⟦<FailAt<D> as BlockDev>⟧.does self.old (Read first out.new (is_ok result)) self.new }
        ensures sure { IsTrue (⟦<FailAt<D> as BlockDev>⟧.state self.old).never_fails → IsOk result }
        ensures fault { OnErr result (DeviceFails ⟦<FailAt<D> as BlockDev>⟧.state self.old self.new) }

        // The call that fails leaves the inner device as it was, and every other is passed on to it.
        ensures fails { self.old.calls_to_failure ≡ 1 → IsErr result × (D.state self.new.inner ≡ D.state self.old.inner) }
        ensures passes { self.old.calls_to_failure ≢ 1 → ReadsInner D.state self.old.inner self.new.inner first out.old out.new (is_ok result) }
        ensures calls { self.new.calls_to_failure ≡ self.old.calls_to_failure - 1 }
    {
        if self.calls_to_failure == 1 {
            self.calls_to_failure = 0;
            self.sectors_of_failed_reads = self
                .sectors_of_failed_reads
                .saturating_add(out.len() as u64 / 512);
            self.failed_calls = self.failed_calls.saturating_add(1);
            return Err(DeviceFault);
        }
        self.calls_to_failure = self.calls_to_failure.saturating_sub(1);
        self.inner.read(first, out)
    }

    fn write(&mut self, first: u64, bytes: &[u8]) -> Result<(), DeviceFault>
        requires range { IsInside (⟦<FailAt<D> as BlockDev>⟧.state self.old) first (length bytes.now) }
        requires allowed { IsTrue (⟦<FailAt<D> as BlockDev>⟧.state self.old).may_write }
        ensures moved { DeviceWrites ⟦<FailAt<D> as BlockDev>⟧.state self.old self.new first bytes.now (is_ok result) }
        ensures image { OnOk result (DevicePuts ⟦<FailAt<D> as BlockDev>⟧.state self.old self.new first bytes.now) }
        ensures call { DeviceDoes ⟦<FailAt<D> as BlockDev>⟧.state ⟦<FailAt<D> as BlockDev>⟧.does self.old (Write first bytes.now (is_ok result)) self.new }
        ensures sure { IsTrue (⟦<FailAt<D> as BlockDev>⟧.state self.old).never_fails → IsOk result }
        ensures fault { OnErr result (DeviceFails ⟦<FailAt<D> as BlockDev>⟧.state self.old self.new) }

        // The call that fails leaves the inner device as it was, and every other is passed on to it.
        ensures fails { self.old.calls_to_failure ≡ 1 → IsErr result × (D.state self.new.inner ≡ D.state self.old.inner) }
        ensures passes { self.old.calls_to_failure ≢ 1 → WritesInner D.state self.old.inner self.new.inner first bytes.now (is_ok result) }
        ensures calls { self.new.calls_to_failure ≡ self.old.calls_to_failure - 1 }
    {
        if self.calls_to_failure == 1 {
            self.calls_to_failure = 0;
            self.sectors_of_failed_writes = self
                .sectors_of_failed_writes
                .saturating_add(bytes.len() as u64 / 512);
            self.has_failed_write = true;
            self.failed_calls = self.failed_calls.saturating_add(1);
            return Err(DeviceFault);
        }
        self.calls_to_failure = self.calls_to_failure.saturating_sub(1);
        self.inner.write(first, bytes)
    }

    fn reads(&self) -> u64 {
        self.inner
            .reads()
            .saturating_add(self.sectors_of_failed_reads)
    }

    fn writes(&self) -> u64 {
        self.inner
            .writes()
            .saturating_add(self.sectors_of_failed_writes)
    }

    fn failures(&self) -> u64 {
        self.inner.failures().saturating_add(self.failed_calls)
    }

    fn lacked_space(&self) -> bool {
        self.inner.lacked_space()
    }
}

impl<D: SyncDev> SyncDev for FailAt<D> {
    fn is_dirty(&self) -> bool {
        self.has_failed_write || self.inner.is_dirty()
    }

    fn sync(&mut self) -> Result<(), DeviceFault>
        ensures ok { OnOk result (DeviceSyncs ⟦<FailAt<D> as BlockDev>⟧.state self.old self.new) }
        ensures err { OnErr result (DeviceFailsToSync ⟦<FailAt<D> as BlockDev>⟧.state self.old self.new) }
        ensures call { DeviceDoes ⟦<FailAt<D> as BlockDev>⟧.state ⟦<FailAt<D> as BlockDev>⟧.does self.old (Sync (is_ok result)) self.new }
        ensures sure { IsTrue (⟦<FailAt<D> as BlockDev>⟧.state self.old).never_fails → IsOk result }

        // As for reads and writes.
        ensures fails { self.old.calls_to_failure ≡ 1 → IsErr result × (D.state self.new.inner ≡ D.state self.old.inner) }
        ensures passes { self.old.calls_to_failure ≢ 1 → SyncsInner D.state self.old.inner self.new.inner (is_ok result) }
        ensures calls { self.new.calls_to_failure ≡ self.old.calls_to_failure - 1 }
    {
        if self.calls_to_failure == 1 {
            self.calls_to_failure = 0;
            self.failed_calls = self.failed_calls.saturating_add(1);
            return Err(DeviceFault);
        }
        self.calls_to_failure = self.calls_to_failure.saturating_sub(1);
        self.inner.sync()?;
        self.has_failed_write = false;
        Ok(())
    }
}
