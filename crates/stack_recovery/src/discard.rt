//! A device that discards what is written.
ghost use Rattle.std.specs.Prelude.{◌≡◌, ◌≤◌, ◌^◌, false, true, refl};
ghost use Rattle.block_device.specs.Counters.{capped-fits};
ghost use Rattle.block_device.specs.Device.{capped, zeros_image};
ghost use Rattle.block_device.specs.Whole.{whole_zeros};

use block_device::{BlockDev, DeviceFault, SyncDev};

/// A device that accepts every write and discards the data. It never fails, and a read leaves the buffer unchanged.
#[derive(Drop)]
pub struct Discard {
    sectors: u64,
    reads: u64,
    writes: u64,
    dirty: bool,
    ghost small: { sectors ≤ 2 ^ 54 },
}

impl Discard {
    /// Returns a device of `sectors` sectors.
    pub fn new(sectors: u64) -> Discard
        requires { sectors ≤ 2 ^ 54 }
        ensures size { (⟦<Discard as BlockDev>⟧.state result).size ≡ sectors }
        ensures may_write { (⟦<Discard as BlockDev>⟧.state result).may_write ≡ true }
    {
        Discard {
            sectors,
            reads: 0,
            writes: 0,
            dirty: false,
        }
    }
}

impl BlockDev for Discard {
    ghost state = { λ f. record {
      size = f.sectors;
      may_write = true;
      steady = false;
      never_fails = true;
      dirty = f.dirty;
      image = zeros_image f.sectors;
      reads = capped f.reads;
      writes = capped f.writes;
      failures = 0;
      lacked_space = false;
    } };

    ghost gives = { λ f first bytes. Unit {0} };

    ghost does = { λ old call new. Unit {0} };

    ghost whole = { λ f. whole_zeros (⟦<Discard as BlockDev>⟧.state f) refl };

    ghost counters = { λ f. record { reads = capped-fits f.reads; writes = capped-fits f.writes; failures = capped-fits 0 } };

    fn sectors(&self) -> u64 {
        self.sectors
    }

    fn writable(&self) -> bool {
        true
    }

    fn read(&mut self, _first: u64, out: &mut [u8]) -> Result<(), DeviceFault> {
        self.reads = self.reads.saturating_add(out.len() as u64 / 512);
        Ok(())
    }

    fn write(&mut self, _first: u64, bytes: &[u8]) -> Result<(), DeviceFault> {
        self.writes = self.writes.saturating_add(bytes.len() as u64 / 512);
        self.dirty = true;
        Ok(())
    }

    fn reads(&self) -> u64 {
        self.reads
    }

    fn writes(&self) -> u64 {
        self.writes
    }

    fn failures(&self) -> u64 {
        0
    }

    fn lacked_space(&self) -> bool {
        false
    }
}

impl SyncDev for Discard {
    fn is_dirty(&self) -> bool {
        self.dirty
    }

    // There is nothing to sync.
    fn sync(&mut self) -> Result<(), DeviceFault> {
        self.dirty = false;
        Ok(())
    }
}
