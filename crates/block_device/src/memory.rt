//! A device in memory.
ghost use Rattle.std.specs.Prelude.{◌≡◌, ◌≤◌, ◌/◌, ◌*◌, ◌+◌, ◌%◌, ◌++◌, take, drop, length, replicate, false, true, refl, is_ok, IfErr, IfOk, IsOk, IsTrue, OnErr, OnOk};
ghost use Rattle.std.specs.List.{concat};
ghost use Rattle.allocation.specs.Asked.{asked};
ghost use Rattle.block_device.specs.Call.{DeviceDoes, Write};
ghost use Rattle.block_device.specs.Calls.{DeviceFails, DevicePuts, DeviceWrites};
ghost use Rattle.block_device.specs.Counters.{capped-fits};
ghost use Rattle.block_device.specs.Device.{IsInside, capped, sectors_of, in_memory, zeros_image, ramp_image};
ghost use Rattle.block_device.specs.Whole.{whole_bytes};

use crate::{BlockDev, DeviceFault, SyncDev};
use allocation::{OutOfMemory, append, with_capacity, zeros};
use std::alloc::Global;

/// Bytes in memory as sectors, of which a trailing part of a sector isn't seen. It is steady and never
/// fails.
#[derive(Drop)]
pub struct MemoryDev {
    bytes: Vec<u8>,
    writable: bool,
    dirty: bool,
    reads: u64,
    writes: u64,
}

impl MemoryDev {
    ghost use Rattle.block_device.specs.Memory.{memory_bytes};

    /// A device of the whole sectors of `bytes`.
    pub fn new(bytes: Vec<u8>, writable: bool) -> MemoryDev
        ensures state { ⟦<MemoryDev as BlockDev>⟧.state result ≡ in_memory (sectors_of (length bytes.items / 512) bytes.items) writable }
        ensures bytes { memory_bytes result ≡ bytes.items }
    {
        MemoryDev {
            bytes,
            writable,
            dirty: false,
            reads: 0,
            writes: 0,
        }
    }

    /// A device of which sector k is filled with the byte k modulo 256.
    ///
    /// # Errors
    ///
    /// `OutOfMemory` if the allocator refused room for at most its bytes.
    pub fn ramp(alloc: Global, sectors: u32, writable: bool) -> Result<MemoryDev, OutOfMemory>
        ensures ok { IfOk result (λ m. ⟦<MemoryDev as BlockDev>⟧.state m ≡ in_memory (ramp_image sectors) writable) }
        ensures err { IfErr result (λ e. asked e ≤ sectors * 512) }
    {
        let bytes = ramp_bytes(alloc, sectors)?;
        Ok(MemoryDev::new(bytes, writable))
    }

    /// A device of zero bytes.
    ///
    /// # Errors
    ///
    /// `OutOfMemory` if the allocator refused room for its bytes.
    pub fn zeros(alloc: Global, sectors: u32, writable: bool) -> Result<MemoryDev, OutOfMemory>
        ensures ok { IfOk result (λ m. ⟦<MemoryDev as BlockDev>⟧.state m ≡ in_memory (zeros_image sectors) writable) }
        ensures err { IfErr result (λ e. asked e ≤ sectors * 512) }
    {
        let bytes = zeros(alloc, sectors as usize * 512)?;
        Ok(MemoryDev::new(bytes, writable))
    }

    /// The bytes that it holds, a trailing part of a sector too.
    pub fn into_bytes(self) -> Vec<u8>
        ensures bytes { result.items ≡ memory_bytes self }
        ensures size { length result.items / 512 ≡ (⟦<MemoryDev as BlockDev>⟧.state self).size }
        ensures image { sectors_of (length result.items / 512) result.items ≡ (⟦<MemoryDev as BlockDev>⟧.state self).image }
    {
        let MemoryDev {
            bytes,
            writable: _,
            dirty: _,
            reads: _,
            writes: _,
        } = self;
        bytes
    }
}

// The sectors of a ramp, one after another.
fn ramp_bytes(alloc: Global, sectors: u32) -> Result<Vec<u8>, OutOfMemory>
    ensures ok { IfOk result (λ v. v.items ≡ concat (ramp_image sectors)) }
    ensures err { IfErr result (λ e. asked e ≤ sectors * 512) }
{
    let mut bytes = with_capacity(alloc, sectors as usize * 512)?;
    for k in 0..sectors {
        append(&mut bytes, &[(k % 256) as u8; 512])?;
    }
    Ok(bytes)
}

impl BlockDev for MemoryDev {
    ghost use Rattle.block_device.specs.Memory.{memory_bytes};

    ghost state = { λ m. record {
      size = length m.bytes.items / 512;
      may_write = m.writable;
      steady = true;
      never_fails = true;
      dirty = m.dirty;
      image = sectors_of (length m.bytes.items / 512) m.bytes.items;
      reads = capped m.reads;
      writes = capped m.writes;
      failures = 0;
      lacked_space = false;
    } };

    ghost gives = { λ m first bytes. Unit {0} };

    ghost does = { λ old call new. Unit {0} };

    ghost whole = { λ m. whole_bytes (⟦<MemoryDev as BlockDev>⟧.state m) m.bytes.items refl refl };

    ghost counters = { λ d. record { reads = capped-fits d.reads; writes = capped-fits d.writes; failures = capped-fits 0 } };

    fn sectors(&self) -> u64 {
        self.bytes.len() as u64 / 512
    }

    fn writable(&self) -> bool {
        self.writable
    }

    fn read(&mut self, first: u64, out: &mut [u8]) -> Result<(), DeviceFault> {
        let start = first as usize * 512;
        let n = out.len();
        self.reads = self.reads.saturating_add(n as u64 / 512);
        out.copy_from_slice(&self.bytes[start..start + n]);
        Ok(())
    }

    // A trailing part of a sector stays as it is.
    fn write(&mut self, first: u64, bytes: &[u8]) -> Result<(), DeviceFault>
        requires range { IsInside (⟦<MemoryDev as BlockDev>⟧.state self.old) first (length bytes.now) }
        requires allowed { IsTrue (⟦<MemoryDev as BlockDev>⟧.state self.old).may_write }
        ensures moved { DeviceWrites ⟦<MemoryDev as BlockDev>⟧.state self.old self.new first bytes.now (is_ok result) }
        ensures image { OnOk result (DevicePuts ⟦<MemoryDev as BlockDev>⟧.state self.old self.new first bytes.now) }
        ensures call { DeviceDoes ⟦<MemoryDev as BlockDev>⟧.state ⟦<MemoryDev as BlockDev>⟧.does self.old (Write first bytes.now (is_ok result)) self.new }
        ensures sure { IsTrue (⟦<MemoryDev as BlockDev>⟧.state self.old).never_fails → IsOk result }
        ensures fault { OnErr result (DeviceFails ⟦<MemoryDev as BlockDev>⟧.state self.old self.new) }
        ensures bytes { memory_bytes self.new ≡ take (first * 512) (memory_bytes self.old) ++ bytes.now ++ drop (first * 512 + length bytes.now) (memory_bytes self.old) }
    {
        let start = first as usize * 512;
        self.dirty = true;
        self.writes = self.writes.saturating_add(bytes.len() as u64 / 512);
        put(&mut self.bytes, start, bytes);
        Ok(())
    }

    fn reads(&self) -> u64 {
        self.reads
    }

    fn writes(&self) -> u64 {
        self.writes
    }

    fn failures(&self) -> u64 {
        0
    }

    fn lacked_space(&self) -> bool {
        false
    }
}

impl SyncDev for MemoryDev {
    fn is_dirty(&self) -> bool {
        self.dirty
    }

    // Memory is all the medium there is.
    fn sync(&mut self) -> Result<(), DeviceFault> {
        self.dirty = false;
        Ok(())
    }
}

// Replaces bytes by others.
fn put(bytes: &mut Vec<u8>, at: usize, part: &[u8])
    requires { at + length part.now ≤ length bytes.old.items }
    ensures { bytes.new.items ≡ take at bytes.old.items ++ part.now ++ drop (at + length part.now) bytes.old.items }
{
    bytes[at..at + part.len()].copy_from_slice(part);
}
