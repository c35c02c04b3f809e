//! A device that is only read, after its writes were synced.
ghost use Rattle.std.specs.Prelude.{◌≡◌, IsErr, None, Option};
ghost use Rattle.std.specs.Option.{ForSome};
ghost use Rattle.block_device.specs.Call.{DeviceDoes};
ghost use Rattle.block_device.specs.Device.{Device};
ghost use Rattle.repair_commands.specs.OnlyRead.{KeepsFlags, read_only};

use block_device::{BlockDev, DeviceFault};
use std::marker::{Brand, PhantomData};

/// Names what a device was, for proofs that need it. A caller passes `Brand`, and picks it in its proof.
pub(crate) trait Former {
    ghost former: { Option Device };
}

impl Former for Brand {
    ghost former = { None };
}

/// A device that may not be written, so that what was synced stays so.
#[derive(Drop)]
pub(crate) struct OnlyRead<D: BlockDev, K: Former> {
    pub inner: D,
    pub since: PhantomData<K>,
    pub ghost kept: { ForSome K.former (λ former. KeepsFlags former (D.state inner)) },
}

impl<D: BlockDev, K: Former> OnlyRead<D, K> {
    /// Returns the device as one that may not be written.
    pub(crate) fn new(inner: D) -> OnlyRead<D, K>
        requires { ForSome K.former (λ former. KeepsFlags former (D.state inner)) }
        ensures { result.inner ≡ inner }
    {
        OnlyRead {
            inner,
            since: PhantomData,
        }
    }

    /// Returns the device. It is as dirty as it was.
    pub(crate) fn into_inner(self) -> D
        ensures value { result ≡ self.inner }
        ensures kept { ForSome K.former (λ former. KeepsFlags former (D.state result)) }
    {
        let OnlyRead { inner, since: _ } = self;
        inner
    }
}

impl<D: BlockDev, K: Former> BlockDev for OnlyRead<D, K> {
    ghost state = { λ r. read_only (D.state r.inner) };

    ghost gives = { λ r first bytes. D.gives r.inner first bytes };

    ghost does = { λ old call new. DeviceDoes D.state D.does old.inner call new.inner };

    ghost whole = { λ r. record { length = (D.whole r.inner).length; sectors = (D.whole r.inner).sectors } };

    ghost counters = { λ r. record { reads = (D.counters r.inner).reads; writes = (D.counters r.inner).writes; failures = (D.counters r.inner).failures } };

    fn sectors(&self) -> u64 {
        self.inner.sectors()
    }

    fn writable(&self) -> bool {
        false
    }

    fn read(&mut self, first: u64, out: &mut [u8]) -> Result<(), DeviceFault> {
        self.inner.read(first, out)
    }

    // The device isn't writable, so no caller of the trait gets here. These clauses require nothing, since a contract that no
    // call can meet is refused.
    fn write(&mut self, _first: u64, _bytes: &[u8]) -> Result<(), DeviceFault>
        ensures refused { IsErr result }
        ensures same { self.new ≡ self.old }
    {
        Err(DeviceFault)
    }

    fn reads(&self) -> u64 {
        self.inner.reads()
    }

    fn writes(&self) -> u64 {
        self.inner.writes()
    }

    fn failures(&self) -> u64 {
        self.inner.failures()
    }

    fn lacked_space(&self) -> bool {
        self.inner.lacked_space()
    }
}
