//! A device that lacks some of its sectors.
ghost use Rattle.std.specs.Prelude.{◌≡◌, ◌/◌, ◌↔◌, Some, false, true, length, is_ok, IsErr, IfOk, IsOk, IsTrue, OnErr, OnOk};
ghost use Rattle.std.specs.List.{list_any};
ghost use Rattle.block_device.specs.Call.{DeviceDoes, Read};
ghost use Rattle.block_device.specs.Calls.{DeviceFails, DeviceGives, DeviceReads, ReadsInner};
ghost use Rattle.block_device.specs.Device.{IsInside};
ghost use Rattle.device_adapters.specs.Lacking.{LackingDoes, lacking, lacking-fits, lacks, parts_in};
ghost use Rattle.device_adapters.specs.Parts.{LiesInside, overlaps};
ghost use Rattle.device_adapters.specs.Windows.{windowed};

use crate::{OutsideDevice, Part, Window};
use block_device::{BlockDev, DeviceFault, SyncDev};
use std::marker::PhantomData;

/// A device without the sectors of some parts: a read of one of these fails, and the inner device isn't called. Every other call is
/// passed on.
#[derive(Drop)]
pub struct Lacking<D> {
    /// The device that all other calls go to.
    pub inner: D,
    /// The parts that it lacks, if any.
    pub lost: Option<Vec<Part>>,
    /// What this device counts on top of what the inner one does.
    pub sectors_of_failed_reads: u64,
    pub failed_reads: u64,
}

// Whether one of the parts has a sector in common with `count` sectors from sector `first` on.
fn lacks(lost: &Option<Vec<Part>>, first: u64, count: u64) -> bool
    ensures { result ≡ lacks (parts_in lost.now) first count }
{
    match lost {
        None => false,
        Some(parts) => has_common(parts.as_slice(), Part { first, count }),
    }
}

fn has_common(parts: &[Part], at: Part) -> bool
    ensures { result ≡ list_any (λ part. overlaps part at) parts.now }
{
    parts.iter().any(|part| do_overlap(*part, at))
}

fn do_overlap(part: Part, at: Part) -> bool
    ensures { result ≡ overlaps part at }
{
    part.overlaps(at)
}

impl<D: BlockDev> BlockDev for Lacking<D> {
    ghost state = { λ d. lacking (D.state d.inner) (parts_in d.lost) d.sectors_of_failed_reads d.failed_reads };

    ghost gives = { λ d first bytes. D.gives d.inner first bytes };

    ghost does = { λ old call new. LackingDoes (DeviceDoes D.state D.does) (parts_in old.lost) old.inner call new.inner × (new.lost ≡ old.lost) };

    ghost whole = { λ d. record { length = (D.whole d.inner).length; sectors = (D.whole d.inner).sectors } };

    ghost counters = { λ d. lacking-fits (D.state d.inner) (parts_in d.lost) d.sectors_of_failed_reads d.failed_reads (D.counters d.inner) };

    fn sectors(&self) -> u64 {
        self.inner.sectors()
    }

    fn writable(&self) -> bool {
        self.inner.writable()
    }

    fn read(&mut self, first: u64, out: &mut [u8]) -> Result<(), DeviceFault>
        requires { IsInside (⟦<Lacking<D> as BlockDev>⟧.state self.old) first (length out.old) }
        ensures moved { DeviceReads ⟦<Lacking<D> as BlockDev>⟧.state self.old self.new out.old (is_ok result) }
        ensures bytes { OnOk result (DeviceGives ⟦<Lacking<D> as BlockDev>⟧.state self.old first out.old out.new) }
        ensures given { OnOk result (⟦<Lacking<D> as BlockDev>⟧.gives self.old first out.new) }
        ensures call { DeviceDoes ⟦<Lacking<D> as BlockDev>⟧.state ⟦<Lacking<D> as BlockDev>⟧.does self.old (Read first out.new (is_ok result)) self.new }
        ensures sure { IsTrue (⟦<Lacking<D> as BlockDev>⟧.state self.old).never_fails → IsOk result }
        ensures fault { OnErr result (DeviceFails ⟦<Lacking<D> as BlockDev>⟧.state self.old self.new) }

        // A read of a sector that it lacks fails and leaves the inner device as it was, and every other is passed on to it.
        ensures fails { lacks (parts_in self.old.lost) first (length out.old / 512) ≡ true → IsErr result × (self.new.inner ≡ self.old.inner) }
        ensures passes { lacks (parts_in self.old.lost) first (length out.old / 512) ≡ false → ReadsInner D.state self.old.inner self.new.inner first out.old out.new (is_ok result) }
        ensures lost { self.new.lost ≡ self.old.lost }
    {
        let sectors = out.len() as u64 / 512;
        if lacks(&self.lost, first, sectors) {
            self.sectors_of_failed_reads = self.sectors_of_failed_reads.saturating_add(sectors);
            self.failed_reads = self.failed_reads.saturating_add(1);
            return Err(DeviceFault);
        }
        self.inner.read(first, out)
    }

    // What is written to a sector that it lacks can't be read either.
    fn write(&mut self, first: u64, bytes: &[u8]) -> Result<(), DeviceFault> {
        self.inner.write(first, bytes)
    }

    fn reads(&self) -> u64 {
        self.inner
            .reads()
            .saturating_add(self.sectors_of_failed_reads)
    }

    fn writes(&self) -> u64 {
        self.inner.writes()
    }

    fn failures(&self) -> u64 {
        self.inner.failures().saturating_add(self.failed_reads)
    }

    fn lacked_space(&self) -> bool {
        self.inner.lacked_space()
    }
}

impl<D: SyncDev> SyncDev for Lacking<D> {
    fn is_dirty(&self) -> bool {
        self.inner.is_dirty()
    }

    fn sync(&mut self) -> Result<(), DeviceFault> {
        self.inner.sync()?;
        Ok(())
    }
}

// The device, which lacks nothing.
fn lacking_nothing<D: BlockDev>(inner: D) -> Lacking<D>
    ensures inner { result.inner ≡ inner }
    ensures state { ⟦<Lacking<D> as BlockDev>⟧.state result ≡ D.state inner }
{
    Lacking {
        inner,
        lost: None,
        sectors_of_failed_reads: 0,
        failed_reads: 0,
    }
}

/// Returns a window of the whole device, which lacks nothing.
pub fn whole_window<D: BlockDev>(device: D) -> Window<Lacking<D>>
    ensures inner { result.inner.inner ≡ device }
    ensures state { ⟦<Window<Lacking<D>> as BlockDev>⟧.state result ≡ D.state device }
{
    Window::whole(lacking_nothing(device))
}

/// Returns a window of this part of the device, which lacks nothing.
///
/// # Errors
///
/// `OutsideDevice` if the part is not within the device, which is dropped.
pub fn part_window<D: BlockDev + Drop>(
    device: D,
    part: Part,
) -> Result<Window<Lacking<D>>, OutsideDevice>
    ensures ok { IfOk result (λ w. (w.inner.inner ≡ device) × (w.part ≡ part)) }
    ensures state { IfOk result (λ w. ⟦<Lacking<D> as BlockDev>⟧.state w.inner ≡ D.state device) }
    ensures inside { IsOk result ↔ LiesInside (D.state device) part }
{
    Window::new(lacking_nothing(device), part)
}

/// Returns the window of the same part of the device without the sectors of these parts, and no others. These are parts of the
/// whole device.
pub fn lacking_window<D: BlockDev>(given: Window<Lacking<D>>, lost: Vec<Part>) -> Window<Lacking<D>>
    ensures inner { result.inner.inner ≡ given.inner.inner }
    ensures lost { result.inner.lost ≡ Some lost }
    ensures state { ⟦<Window<Lacking<D>> as BlockDev>⟧.state result ≡ windowed (lacking (D.state given.inner.inner) lost.items given.inner.sectors_of_failed_reads given.inner.failed_reads) given.part }
{
    let Window {
        inner: whole,
        part,
        beside: _,
    } = given;
    let Lacking {
        inner,
        lost: _before,
        sectors_of_failed_reads,
        failed_reads,
    } = whole;
    let inner = Lacking {
        inner,
        lost: Some(lost),
        sectors_of_failed_reads,
        failed_reads,
    };
    Window {
        inner,
        part,
        beside: PhantomData,
    }
}
