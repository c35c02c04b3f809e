//! A device of sectors, as the layers above see it.
ghost use Rattle.std.specs.Prelude.{◌≡◌, ◌≤◌, ◌^◌, ℕ, List, length, is_ok, OnOk, OnErr, IsOk, IsTrue};
ghost use Rattle.block_device.specs.Call.{Call, DeviceDoes, Read, Write};
ghost use Rattle.block_device.specs.Calls.{DeviceFails, DeviceGives, DevicePuts, DeviceReads, DeviceWrites};
ghost use Rattle.block_device.specs.Device.{CountersFit, Device, IsInside, IsWhole};

use thiserror::Error;

/// The device failed in this call, and counted the failure unless its counter was at its end.
#[derive(Clone, Copy, Debug, PartialEq, Eq, Error)]
#[error("the device failed")]
pub struct DeviceFault;

/// A device of 512-byte sectors.
///
/// Its counters saturate at the greatest `u64`. After a failed read `out` may hold anything; after a
/// failed write the sectors of its range may, and no other sector of a steady device is changed.
pub trait BlockDev {
    /// What a proof sees of the device.
    ghost state: { Self → Device };

    /// Of a device that isn't steady: which bytes a read from that sector on may give. Of a steady one the image says it.
    ghost gives: { Self → ℕ → List ℕ → Type 0 };

    /// What a device promises of one call, from the state before it to the state after it. Code that is generic over the device
    /// knows this only of the calls that it made, so a list of them (`Calls`) names every call, in order.
    ghost does: { Self → Call → Self → Type 0 };

    /// How many sectors there are. It never changes.
    fn sectors(&self) -> u64
        ensures size { result ≡ (state self.now).size }
        ensures small { result ≤ 2 ^ 54 };

    /// Whether it may be written. It never changes.
    fn writable(&self) -> bool
        ensures { result ≡ (state self.now).may_write };

    /// Reads the sectors from `first` on that fill `out`, a positive multiple of 512 bytes.
    fn read(&mut self, first: u64, out: &mut [u8]) -> Result<(), DeviceFault>
        requires { IsInside (state self.old) first (length out.old) }
        ensures moved { DeviceReads state self.old self.new out.old (is_ok result) }
        ensures bytes { OnOk result (DeviceGives state self.old first out.old out.new) }
        ensures given { OnOk result (gives self.old first out.new) }
        ensures call { DeviceDoes state does self.old (Read first out.new (is_ok result)) self.new }
        ensures sure { IsTrue (state self.old).never_fails → IsOk result }
        ensures fault { OnErr result (DeviceFails state self.old self.new) };

    /// Writes the sectors from `first` on, a positive multiple of 512 bytes.
    fn write(&mut self, first: u64, bytes: &[u8]) -> Result<(), DeviceFault>
        requires range { IsInside (state self.old) first (length bytes.now) }
        requires allowed { IsTrue (state self.old).may_write }
        ensures moved { DeviceWrites state self.old self.new first bytes.now (is_ok result) }
        ensures image { OnOk result (DevicePuts state self.old self.new first bytes.now) }
        ensures call { DeviceDoes state does self.old (Write first bytes.now (is_ok result)) self.new }
        ensures sure { IsTrue (state self.old).never_fails → IsOk result }
        ensures fault { OnErr result (DeviceFails state self.old self.new) };

    /// Returns how many sectors reads have requested, including failed calls.
    fn reads(&self) -> u64
        ensures { result ≡ (state self.now).reads };

    /// Returns how many sectors writes have requested, including failed calls.
    fn writes(&self) -> u64
        ensures { result ≡ (state self.now).writes };

    /// How many calls have failed.
    fn failures(&self) -> u64
        ensures { result ≡ (state self.now).failures };

    /// Whether the last read or write that failed was a write for which no space was left: in the file system, in a quota, or
    /// below the limit of a file's size.
    fn lacked_space(&self) -> bool
        ensures { result ≡ (state self.now).lacked_space };

    /// The image has as many sectors as the device, each of 512 bytes.
    ghost whole: { (d : Self) → IsWhole (state d) };

    /// The counters fit in 64 bits, so a failed call is always seen in them.
    ghost counters: { (d : Self) → CountersFit (state d) };
}
