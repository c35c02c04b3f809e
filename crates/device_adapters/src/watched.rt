//! A device that reports how much was read.
ghost use Rattle.std.specs.Prelude.{◌≡◌, ◌*◌, length, min, is_ok, IsOk, IsTrue, OnErr, OnOk, true};
ghost use Rattle.block_device.specs.Call.{DeviceDoes, Read};
ghost use Rattle.block_device.specs.Calls.{DeviceFails, DeviceGives, DeviceReads, ReadsInner};
ghost use Rattle.block_device.specs.Device.{IsInside};
ghost use Rattle.device_adapters.specs.Watching.{done_after, done_behind};

use crate::progress::Progress;
use block_device::{BlockDev, DeviceFault, SyncDev};

/// A device with the state of the inner device. After each successful read it reports to its watcher how many bytes
/// have been read, or up to which place.
#[derive(Drop)]
pub struct Watched<D, P> {
    /// The inner device.
    pub inner: D,
    /// The receiver of the reports.
    pub watcher: P,
    /// The bytes of the successful reads, or those before the furthest place that was read, at most the largest `u64`.
    pub done: u64,
    /// The total number of bytes to be read, as reported to the watcher.
    pub all: u64,
    /// Whether the furthest place is reported. Bytes that are read again don't count then.
    pub by_place: bool,
}

/// Returns the number of bytes of a device before sector `end`, which may be after the end of the device.
pub fn bytes_before<D: BlockDev>(device: &D, end: u64) -> u64
    ensures { result ≡ min (D.state device.now).size end * 512 }
{
    device.sectors().min(end) * 512
}

impl<D: BlockDev, P: Progress> Watched<D, P> {
    /// Returns a watched device with nothing read yet, of `all` bytes in total.
    pub fn new(inner: D, watcher: P, all: u64) -> Watched<D, P>
        ensures inner { result.inner ≡ inner }
        ensures state { ⟦<Watched<D, P> as BlockDev>⟧.state result ≡ D.state inner }
        ensures done { result.done ≡ 0 }
    {
        Watched {
            inner,
            watcher,
            done: 0,
            all,
            by_place: false,
        }
    }

    /// Returns a watched device that reports the furthest place that was read.
    pub fn by_place(inner: D, watcher: P, all: u64) -> Watched<D, P>
        ensures inner { result.inner ≡ inner }
        ensures state { ⟦<Watched<D, P> as BlockDev>⟧.state result ≡ D.state inner }
        ensures place { result.by_place ≡ true }
    {
        let mut watched = Watched::new(inner, watcher, all);
        watched.by_place = true;
        watched
    }
}

// Returns what is reported after a successful read of so many bytes from a sector on.
fn done_behind(by_place: bool, done: u64, first: u64, count: u64) -> u64
    ensures { result ≡ done_behind by_place done first count }
{
    if by_place {
        return done.max(first.saturating_mul(512).saturating_add(count));
    }
    done.saturating_add(count)
}

impl<D: BlockDev, P: Progress> BlockDev for Watched<D, P> {
    ghost state = { λ w. D.state w.inner };

    ghost gives = { λ w first bytes. D.gives w.inner first bytes };

    ghost does = { λ old call new. DeviceDoes D.state D.does old.inner call new.inner };

    ghost whole = { λ w. record { length = (D.whole w.inner).length; sectors = (D.whole w.inner).sectors } };

    ghost counters = { λ w. record { reads = (D.counters w.inner).reads; writes = (D.counters w.inner).writes; failures = (D.counters w.inner).failures } };

    fn sectors(&self) -> u64 {
        self.inner.sectors()
    }

    fn writable(&self) -> bool {
        self.inner.writable()
    }

    fn read(&mut self, first: u64, out: &mut [u8]) -> Result<(), DeviceFault>
        requires { IsInside (⟦<Watched<D, P> as BlockDev>⟧.state self.old) first (length out.old) }
        ensures moved { DeviceReads ⟦<Watched<D, P> as BlockDev>⟧.state self.old self.new out.old (is_ok result) }
        ensures bytes { OnOk result (DeviceGives ⟦<Watched<D, P> as BlockDev>⟧.state self.old first out.old out.new) }
        ensures given { OnOk result (⟦<Watched<D, P> as BlockDev>⟧.gives self.old first out.new) }
        ensures call { DeviceDoes ⟦<Watched<D, P> as BlockDev>⟧.state ⟦<Watched<D, P> as BlockDev>⟧.does self.old (Read first out.new (is_ok result)) self.new }
        ensures sure { IsTrue (⟦<Watched<D, P> as BlockDev>⟧.state self.old).never_fails → IsOk result }
        ensures fault { OnErr result (DeviceFails ⟦<Watched<D, P> as BlockDev>⟧.state self.old self.new) }

        // It is one read of the inner device; the bytes are counted if it succeeds.
        ensures inner { ReadsInner D.state self.old.inner self.new.inner first out.old out.new (is_ok result) }
        ensures done { self.new.done ≡ done_after self.old.by_place self.old.done first (length out.old) (is_ok result) }
    {
        self.inner.read(first, out)?;
        self.done = done_behind(self.by_place, self.done, first, out.len() as u64);
        self.watcher.tell(self.done, Some(self.all));
        Ok(())
    }

    fn write(&mut self, first: u64, bytes: &[u8]) -> Result<(), DeviceFault> {
        self.inner.write(first, bytes)
    }

    fn reads(&self) -> u64 {
        self.inner.reads()
    }

    fn writes(&self) -> u64 {
        self.inner.writes()
    }

    fn failures(&self) -> u64 {
        self.inner.failures()
    }

    fn lacked_space(&self) -> bool {
        self.inner.lacked_space()
    }
}

impl<D: SyncDev, P: Progress> SyncDev for Watched<D, P> {
    fn is_dirty(&self) -> bool {
        self.inner.is_dirty()
    }

    fn sync(&mut self) -> Result<(), DeviceFault> {
        self.inner.sync()
    }
}
