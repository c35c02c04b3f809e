//! A part of a device.
ghost use Rattle.std.specs.Prelude.{◌≡◌, ◌+◌, ◌^◌, ◌≤◌, ◌↔◌, IsTrue};
ghost use Rattle.device_adapters.specs.Parts.{LiesInside, overlaps, part_before, part_behind};

use block_device::BlockDev;
use thiserror::Error;

/// `count` sectors of 512 bytes from sector `first` on.
#[derive(Clone, Copy, Debug, PartialEq, Eq)]
pub struct Part {
    pub first: u64,
    pub count: u64,
}

/// The part is not within the device.
#[derive(Clone, Copy, Debug, PartialEq, Eq, Error)]
#[error("OutsideDevice")]
pub struct OutsideDevice;

impl Part {
    /// Returns the part of the device from sector `first` on; it is empty if the device ends before that sector.
    pub fn behind<D: BlockDev>(device: &D, first: u64) -> Part
        ensures value { result ≡ part_behind (D.state device.now) first }
        ensures inside { LiesInside (D.state device.now) result }
        ensures small { result.first + result.count ≤ 2 ^ 54 }
    {
        let sectors = device.sectors();
        Part {
            first: first.min(sectors),
            count: sectors.saturating_sub(first),
        }
    }

    /// Returns the part of the device before sector `end`, which may be after the end of the device.
    pub fn before<D: BlockDev>(device: &D, end: u64) -> Part
        ensures value { result ≡ part_before (D.state device.now) end }
        ensures inside { LiesInside (D.state device.now) result }
        ensures small { result.first + result.count ≤ 2 ^ 54 }
    {
        let count = end.min(device.sectors());
        Part { first: 0, count }
    }

    /// Returns whether the part is within the device.
    pub fn is_inside<D: BlockDev>(self, device: &D) -> bool
        ensures inside { IsTrue result ↔ LiesInside (D.state device.now) self }
        ensures small { IsTrue result → self.first + self.count ≤ 2 ^ 54 }
    {
        let sectors = device.sectors();
        self.first <= sectors && self.count <= sectors - self.first
    }

    /// Returns whether the parts have a sector in common.
    pub fn overlaps(self, other: Part) -> bool
        ensures { result ≡ overlaps self other }
    {
        self.count > 0
            && other.count > 0
            && self.first.saturating_sub(other.first) < other.count
            && other.first.saturating_sub(self.first) < self.count
    }
}
