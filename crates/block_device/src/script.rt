//! A device that answers what a script says.
ghost use Rattle.std.specs.Prelude.{◌≡◌, ◌≤◌, ◌^◌, ◌/◌, ◌+◌, length, true, false, refl, is_ok, IsOk, IsErr, map};
ghost use Rattle.block_device.specs.Calls.{DeviceReads};
ghost use Rattle.block_device.specs.Counters.{capped-fits};
ghost use Rattle.block_device.specs.Device.{IsInside, capped, zeros_image};
ghost use Rattle.block_device.specs.Script.{answer_of};
ghost use Rattle.block_device.specs.Whole.{whole_zeros};

use crate::{BlockDev, DeviceFault, SyncDev};
use std::marker::Model;

/// Its i-th read returns the i-th answer, cut or filled with zeros to the requested length, and zeros after
/// the last, at any sector. It is neither writable nor steady, and no read fails. A write, which no caller of
/// the trait may make, returns a fault, counts nothing and changes nothing.
#[derive(Drop)]
pub struct ScriptDev {
    sectors: u64,
    answers: Vec<Vec<u8>>,
    calls: usize,
    reads: u64,
}

impl Model for ScriptDev {
    ghost use Rattle.std.specs.Prelude.{◌≤◌, ◌^◌, map};
    ghost use Rattle.block_device.specs.Script.{Script};

    ghost Value = { Script };

    ghost view = { λ s. record { sectors = s.sectors; answers = map (λ v. v.items) s.answers.items; calls = s.calls; reads = s.reads } };

    ghost invariant = { λ s. s.sectors ≤ 2 ^ 54 };
}

impl ScriptDev {
    /// A device of at most 2^54 sectors with these answers.
    pub fn new(sectors: u64, answers: Vec<Vec<u8>>) -> ScriptDev
        requires { sectors ≤ 2 ^ 54 }
        ensures { result ≡ record { sectors = sectors; answers = map (λ v. v.items) answers.items; calls = 0; reads = 0 } }
    {
        ScriptDev {
            sectors,
            answers,
            calls: 0,
            reads: 0,
        }
    }
}

// The answer of that number, cut or filled with zeros.
fn answer(answers: &[Vec<u8>], number: usize, out: &mut [u8])
    ensures { out.new ≡ answer_of (map (λ v. v.items) answers.now) number (length out.old) }
{
    out.fill(0);
    if let Some(bytes) = answers.get(number) {
        let n = bytes.len().min(out.len());
        out[..n].copy_from_slice(&bytes[..n]);
    }
}

impl BlockDev for ScriptDev {
    ghost state = { λ s. record {
      size = s.sectors;
      may_write = false;
      steady = false;
      never_fails = true;
      dirty = false;
      image = zeros_image s.sectors;
      reads = capped s.reads;
      writes = 0;
      failures = 0;
      lacked_space = false;
    } };

    ghost gives = { λ s first bytes. bytes ≡ answer_of s.answers s.calls (length bytes) };

    ghost does = { λ old call new. Unit {0} };

    ghost whole = { λ s. whole_zeros (⟦<ScriptDev as BlockDev>⟧.state s) refl };

    ghost counters = { λ d. record { reads = capped-fits d.reads; writes = capped-fits 0; failures = capped-fits 0 } };

    fn sectors(&self) -> u64 {
        self.sectors
    }

    fn writable(&self) -> bool {
        false
    }

    fn read(&mut self, _first: u64, out: &mut [u8]) -> Result<(), DeviceFault>
        requires { IsInside (⟦<ScriptDev as BlockDev>⟧.state self.old) _first (length out.old) }
        ensures moved { DeviceReads ⟦<ScriptDev as BlockDev>⟧.state self.old self.new out.old (is_ok result) }
        ensures ok { IsOk result }
        ensures bytes { out.new ≡ answer_of self.old.answers self.old.calls (length out.old) }
        ensures answers { self.new.answers ≡ self.old.answers }
        ensures calls { self.new.calls ≡ capped (self.old.calls + 1) }
    {
        self.reads = self.reads.saturating_add(out.len() as u64 / 512);
        answer(&self.answers, self.calls, out);
        self.calls = self.calls.saturating_add(1);
        Ok(())
    }

    // The device isn't writable, so no caller of the trait gets here: the trait's requirements can't hold. These
    // clauses require nothing, since a contract that no call can meet is refused.
    fn write(&mut self, _first: u64, _bytes: &[u8]) -> Result<(), DeviceFault>
        ensures refused { IsErr result }
        ensures same { self.new ≡ self.old }
    {
        Err(DeviceFault)
    }

    fn reads(&self) -> u64 {
        self.reads
    }

    fn writes(&self) -> u64 {
        0
    }

    fn failures(&self) -> u64 {
        0
    }

    fn lacked_space(&self) -> bool {
        false
    }
}

impl SyncDev for ScriptDev {
    fn is_dirty(&self) -> bool {
        false
    }

    fn sync(&mut self) -> Result<(), DeviceFault> {
        Ok(())
    }
}
