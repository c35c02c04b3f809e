//! A part of a device as a device of its own.
ghost use Rattle.std.specs.Prelude.{◌≡◌, ◌+◌, ◌^◌, ◌≤◌, length, is_ok, ◌↔◌, IsOk, IsTrue, IfOk, OnErr, OnOk};
ghost use Rattle.std.specs.Option.{ForSome};
ghost use Rattle.block_device.specs.Call.{DeviceDoes, Read, Sync, Write, moved_by};
ghost use Rattle.block_device.specs.Calls.{DeviceFails, DeviceFailsToSync, DeviceGives, DevicePuts, DeviceReads, DeviceSyncs, DeviceWrites, ReadsInner, SyncsInner, WritesInner};
ghost use Rattle.block_device.specs.Device.{IsInside};
ghost use Rattle.device_adapters.specs.Parts.{LiesInside, StandOutside, part_before, part_behind};
ghost use Rattle.device_adapters.specs.Windows.{windowed, windowed-whole};

use crate::{Beside, OutsideDevice, Part};
use block_device::{BlockDev, DeviceFault, SyncDev};
use std::marker::{Brand, PhantomData};

/// A part of a device: only its sectors are read and written. Counters, flags and faults are those of the whole
/// device, whose other sectors are unchanged.
#[derive(Drop)]
pub struct Window<D: BlockDev, K: Beside = Brand> {
    /// The whole device.
    pub inner: D,
    pub part: Part,
    pub beside: PhantomData<K>,
    pub ghost inside: { LiesInside (D.state inner) part },
    pub ghost small: { part.first + part.count ≤ 2 ^ 54 },
    pub ghost kept: { ForSome K.outside (StandOutside (D.state inner) part) },
}

impl<D: BlockDev, K: Beside> Window<D, K> {
    /// Returns a window of this part of the device.
    ///
    /// # Errors
    ///
    /// `OutsideDevice` if the part is not within the device, which is dropped.
    pub fn new(inner: D, part: Part) -> Result<Window<D, K>, OutsideDevice>
    where
        D: Drop,
        requires { ForSome K.outside (StandOutside (D.state inner) part) }
        ensures ok { IfOk result (λ w. (w.inner ≡ inner) × (w.part ≡ part)) }
        ensures inside { IsOk result ↔ LiesInside (D.state inner) part }
    {
        if !part.is_inside(&inner) {
            return Err(OutsideDevice);
        }
        Ok(Window {
            inner,
            part,
            beside: PhantomData,
        })
    }

    /// Returns a window of the part of the device from sector `first` on; it is empty if the device ends before that
    /// sector.
    pub fn behind(inner: D, first: u64) -> Window<D, K>
        requires { ForSome K.outside (StandOutside (D.state inner) (part_behind (D.state inner) first)) }
        ensures inner { result.inner ≡ inner }
        ensures part { result.part ≡ part_behind (D.state inner) first }
    {
        let part = Part::behind(&inner, first);
        Window {
            inner,
            part,
            beside: PhantomData,
        }
    }

    /// Returns a window of the part of the device before sector `end`, which may be after the end of the device.
    pub fn before(inner: D, end: u64) -> Window<D, K>
        requires { ForSome K.outside (StandOutside (D.state inner) (part_before (D.state inner) end)) }
        ensures inner { result.inner ≡ inner }
        ensures part { result.part ≡ part_before (D.state inner) end }
    {
        let part = Part::before(&inner, end);
        Window {
            inner,
            part,
            beside: PhantomData,
        }
    }

    /// Returns the whole device. Its sectors outside of the part are unchanged.
    pub fn into_inner(self) -> D
        ensures value { result ≡ self.inner }
        ensures kept { ForSome K.outside (StandOutside (D.state result) self.part) }
    {
        let Window {
            inner,
            part: _,
            beside: _,
        } = self;
        inner
    }
}

impl<D: BlockDev> Window<D> {
    /// Returns a window of the whole device, with the same state as the device.
    pub fn whole(inner: D) -> Window<D>
        ensures inner { result.inner ≡ inner }
        ensures state { ⟦<Window<D, Brand> as BlockDev>⟧.state result ≡ D.state inner }
    {
        Window::<D, Brand>::behind(inner, 0)
    }

    /// Returns a window of a part of this one.
    pub fn narrow(self, part: Part) -> Window<D>
        requires { LiesInside (⟦<Window<D, Brand> as BlockDev>⟧.state self) part }
        ensures inner { result.inner ≡ self.inner }
        ensures part { result.part ≡ record { first = self.part.first + part.first; count = part.count } }
        ensures state { ⟦<Window<D, Brand> as BlockDev>⟧.state result ≡ windowed (⟦<Window<D, Brand> as BlockDev>⟧.state self) part }
    {
        let Window {
            inner,
            part: outer,
            beside: _,
        } = self;
        let part = Part {
            first: outer.first + part.first,
            count: part.count,
        };
        Window {
            inner,
            part,
            beside: PhantomData,
        }
    }
}

impl<D: BlockDev, K: Beside> BlockDev for Window<D, K> {
    ghost state = { λ w. windowed (D.state w.inner) w.part };

    ghost gives = { λ w first bytes. D.gives w.inner (w.part.first + first) bytes };

    ghost does = { λ old call new. DeviceDoes D.state D.does old.inner (moved_by old.part.first call) new.inner × (new.part ≡ old.part) };

    ghost whole = { λ w. windowed-whole (D.state w.inner) w.part w.inside (D.whole w.inner) };

    ghost counters = { λ w. record { reads = (D.counters w.inner).reads; writes = (D.counters w.inner).writes; failures = (D.counters w.inner).failures } };

    fn sectors(&self) -> u64 {
        self.part.count
    }

    fn writable(&self) -> bool {
        self.inner.writable()
    }

    fn read(&mut self, first: u64, out: &mut [u8]) -> Result<(), DeviceFault>
        requires { IsInside (⟦<Window<D, K> as BlockDev>⟧.state self.old) first (length out.old) }
        ensures moved { DeviceReads ⟦<Window<D, K> as BlockDev>⟧.state self.old self.new out.old (is_ok result) }
        ensures bytes { OnOk result (DeviceGives ⟦<Window<D, K> as BlockDev>⟧.state self.old first out.old out.new) }
        ensures given { OnOk result (⟦<Window<D, K> as BlockDev>⟧.gives self.old first out.new) }
        ensures call { DeviceDoes ⟦<Window<D, K> as BlockDev>⟧.state ⟦<Window<D, K> as BlockDev>⟧.does self.old (Read first out.new (is_ok result)) self.new }
        ensures sure { IsTrue (⟦<Window<D, K> as BlockDev>⟧.state self.old).never_fails → IsOk result }
        ensures fault { OnErr result (DeviceFails ⟦<Window<D, K> as BlockDev>⟧.state self.old self.new) }

        // It is one read of the whole device, shifted by the part's first sector.
        ensures inner { ReadsInner D.state self.old.inner self.new.inner (self.old.part.first + first) out.old out.new (is_ok result) }
        ensures part { self.new.part ≡ self.old.part }
    {
        self.inner.read(self.part.first + first, out)
    }

    fn write(&mut self, first: u64, bytes: &[u8]) -> Result<(), DeviceFault>
        requires range { IsInside (⟦<Window<D, K> as BlockDev>⟧.state self.old) first (length bytes.now) }
        requires allowed { IsTrue (⟦<Window<D, K> as BlockDev>⟧.state self.old).may_write }
        ensures moved { DeviceWrites ⟦<Window<D, K> as BlockDev>⟧.state self.old self.new first bytes.now (is_ok result) }
        ensures image { OnOk result (DevicePuts ⟦<Window<D, K> as BlockDev>⟧.state self.old self.new first bytes.now) }
        ensures call { DeviceDoes ⟦<Window<D, K> as BlockDev>⟧.state ⟦<Window<D, K> as BlockDev>⟧.does self.old (Write first bytes.now (is_ok result)) self.new }
        ensures sure { IsTrue (⟦<Window<D, K> as BlockDev>⟧.state self.old).never_fails → IsOk result }
        ensures fault { OnErr result (DeviceFails ⟦<Window<D, K> as BlockDev>⟧.state self.old self.new) }

        // It is one write of the whole device, shifted by the part's first sector.
        ensures inner { WritesInner D.state self.old.inner self.new.inner (self.old.part.first + first) bytes.now (is_ok result) }
        ensures part { self.new.part ≡ self.old.part }
    {
        self.inner.write(self.part.first + first, bytes)
    }

    fn reads(&self) -> u64 {
        self.inner.reads()
    }

    fn writes(&self) -> u64 {
        self.inner.writes()
    }

    fn failures(&self) -> u64 {
        self.inner.failures()
    }

    fn lacked_space(&self) -> bool {
        self.inner.lacked_space()
    }
}

impl<D: SyncDev, K: Beside> SyncDev for Window<D, K> {
    fn is_dirty(&self) -> bool {
        self.inner.is_dirty()
    }

    fn sync(&mut self) -> Result<(), DeviceFault>
        ensures ok { OnOk result (DeviceSyncs ⟦<Window<D, K> as BlockDev>⟧.state self.old self.new) }
        ensures err { OnErr result (DeviceFailsToSync ⟦<Window<D, K> as BlockDev>⟧.state self.old self.new) }
        ensures call { DeviceDoes ⟦<Window<D, K> as BlockDev>⟧.state ⟦<Window<D, K> as BlockDev>⟧.does self.old (Sync (is_ok result)) self.new }
        ensures sure { IsTrue (⟦<Window<D, K> as BlockDev>⟧.state self.old).never_fails → IsOk result }

        // It is one sync of the whole device.
        ensures inner { SyncsInner D.state self.old.inner self.new.inner (is_ok result) }
        ensures part { self.new.part ≡ self.old.part }
    {
        self.inner.sync()
    }
}
