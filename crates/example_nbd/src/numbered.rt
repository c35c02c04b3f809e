//! A device of the program's own: each byte of sector k is 255 - k.
ghost use Rattle.std.specs.Prelude.{◌≡◌, refl, true, false, IsErr};
ghost use Rattle.block_device.specs.Counters.{capped-fits};
ghost use Rattle.block_device.specs.Device.{capped, zeros_image};
ghost use Rattle.block_device.specs.Whole.{whole_zeros};

use volumes::{BlockDev, DeviceFault, SyncDev};

/// A device of 64 sectors. Nothing is promised of its bytes, so it isn't steady.
#[derive(Drop)]
pub struct Numbered {
    pub reads: u64,
}

impl BlockDev for Numbered {
    ghost state = { λ r. record {
      size = 64;
      may_write = false;
      steady = false;
      never_fails = true;
      dirty = false;
      image = zeros_image 64;
      reads = capped r.reads;
      writes = 0;
      failures = 0;
      lacked_space = false;
    } };

    ghost gives = { λ r first bytes. Unit {0} };

    ghost does = { λ old call new. Unit {0} };

    ghost whole = { λ r. whole_zeros (⟦<Numbered as BlockDev>⟧.state r) refl };

    ghost counters = { λ r. record { reads = capped-fits r.reads; writes = capped-fits 0; failures = capped-fits 0 } };

    fn sectors(&self) -> u64 {
        64
    }

    fn writable(&self) -> bool {
        false
    }

    fn read(&mut self, first: u64, out: &mut [u8]) -> Result<(), DeviceFault> {
        for (k, sector) in out.chunks_exact_mut(512).enumerate() {
            sector.fill(u8::MAX - (first as usize + k) as u8);
        }
        self.reads = self.reads.saturating_add(out.len() as u64 / 512);
        Ok(())
    }

    // No caller gets here, since the device isn't writable.
    fn write(&mut self, _first: u64, _bytes: &[u8]) -> Result<(), DeviceFault>
        ensures refused { IsErr result }
        ensures same { self.new ≡ self.old }
    {
        Err(DeviceFault)
    }

    fn reads(&self) -> u64 {
        self.reads
    }

    fn writes(&self) -> u64 {
        0
    }

    fn failures(&self) -> u64 {
        0
    }

    fn lacked_space(&self) -> bool {
        false
    }
}

// A device that isn't writable has nothing to sync.
impl SyncDev for Numbered {
    fn is_dirty(&self) -> bool {
        false
    }

    fn sync(&mut self) -> Result<(), DeviceFault> {
        Ok(())
    }
}
