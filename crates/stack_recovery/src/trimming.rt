//! A run of sectors that weren't read, from its end.
ghost use Rattle.std.specs.Prelude.{◌≡◌, ◌+◌, ◌-◌, ◌≤◌, ◌<◌, length, IsTrue, IfErr, IfOk};
ghost use Rattle.block_device.specs.Call.{DeviceDoes};
ghost use Rattle.stack_rules.specs.Names.{mapped, size};
ghost use Rattle.stack_recovery.specs.Alike.{AreAlike};
ghost use Rattle.stack_recovery.specs.Trims.{ReadsBehind, StopsBehind};

use crate::fault::RecoveryFault;
use crate::piece::piece_at;
use crate::skimming::check_memory;
use block_device::BlockDev;
use stack_config::{Config, DevId};
use stack_engine::{IoFault, Stack};

/// How many sectors of a run come before its last lost ones, how many these are, and their fault.
#[derive(Clone, Copy)]
pub(crate) struct LostEnd {
    pub(crate) before: u64,
    pub(crate) count: u64,
    pub(crate) fault: IoFault,
}

// Returns the first sector of the longest piece from sector `first` on or later that ends before sector `end` and whose sectors are lost together.
fn last_piece(config: &Config, d: DevId, first: u64, end: u64) -> u64
    requires device { d.0 < length config.now.devices }
    requires some { first < end }
    requires inside { end ≤ size config.now (mapped d.0) }
    ensures some { (first ≤ result) × (result < end) }
    ensures few { end ≤ result + 128 }
    ensures alike { AreAlike config.now d.0 result (end - result) }
{
    let mut at = end;
    'sectors: while at > first {
        let piece = piece_at(config, d, at - 1, end, 1);
        if u64::from(piece.count) <= end - at {
            return at;
        }
        at -= 1;
    }
    at
}

/// What a read found that ended where the sectors begin that were read backwards: the first sector from which on these are copied now, or the
/// last lost sectors of the run.
#[derive(Clone, Copy)]
pub(crate) enum Behind {
    Copied(u64),
    Lost(LostEnd),
}

/// Reads the piece of sectors that are lost together that ends before sector `low`, but none before sector `at`. If it can be read, it is
/// written to the same offset of `out`.
///
/// # Errors
///
/// - `NoMemory` if an allocation was refused.
/// - `Output` if `out` failed.
pub(crate) fn read_behind<D: BlockDev, O: BlockDev>(
    stack: &mut Stack<D>,
    d: DevId,
    at: u64,
    low: u64,
    out: &mut O,
    room: &mut [u8],
) -> Result<Behind, RecoveryFault>
    requires device { d.0 < length stack.old.config.devices }
    requires inside { (at < low) × (low ≤ size stack.old.config (mapped d.0)) }
    requires room { (size stack.old.config (mapped d.0) ≤ (O.state out.old).size) × IsTrue (O.state out.old).may_write }
    requires buffer { length room.old ≡ 65536 }
    ensures ok { IfOk result (ReadsBehind D.state D.does O.state (DeviceDoes O.state O.does) d.0 at low stack.old out.old stack.new out.new) }
    ensures err { IfErr result (StopsBehind D.state D.does O.state (DeviceDoes O.state O.does) d.0 at low stack.old out.old stack.new out.new) }
{
    let first = last_piece(stack.config(), d, at, low);
    let count = low - first;
    let bytes = &mut room[..count as usize * 512];
    match stack.read_bytes(d, first, bytes) {
        Ok(()) => {
            out.write(first, bytes)?;
            Ok(Behind::Copied(first))
        }
        Err(fault) => {
            check_memory(fault)?;
            let before = first - at;
            Ok(Behind::Lost(LostEnd {
                before,
                count,
                fault,
            }))
        }
    }
}
