//! Writes the sectors of another device to a mapped device.
ghost use Rattle.std.specs.Prelude.{◌≡◌, ◌+◌, ◌≤◌, ◌<◌, length, IsTrue, None, IsOk, IfOk, IfErr};
ghost use Rattle.stack_rules.specs.Names.{mapped, may_write, size};
ghost use Rattle.transfer_commands.specs.Images.{HasStoredAll, IsStoredEnd, StopsImage, StoresImage, image_place};
ghost use Rattle.transfer_commands.specs.Stores.{put_refusal};

use crate::input::{MOST_PIECE, ROOM, StorePlace, refusal_of, sync_stopped, sync_stored, tell};
use crate::stream_fault::{StoreCause, StoreFault};
use alignment::aligned_len;
use block_device::{BlockDev, SyncDev};
use device_adapters::Progress;
use stack_config::DevId;
use stack_engine::Stack;

/// Writes all sectors of another device to a mapped device from its sector `first` on, and syncs them. Sectors that were
/// written before a fault are synced too. If the sectors don't fit, nothing is read or written.
///
/// # Errors
///
/// `StoreFault` with the cause, and how many sectors were written.
pub fn store_image<D: SyncDev, S: BlockDev, P: Progress>(
    stack: &mut Stack<D>,
    d: DevId,
    first: u64,
    source: &mut S,
    progress: &mut P,
) -> Result<u64, StoreFault>
    requires { d.0 < length stack.old.config.devices }
    ensures ok { IfOk result (StoresImage d.0 first stack.old (S.state source.old) stack.new) }
    ensures err { IfErr result (IsStoredEnd d.0 first stack.old (S.state source.old) stack.new (S.state source.new)) }
    ensures fits { IsOk result → put_refusal stack.old.config d.0 (image_place first (S.state source.old)) ≡ None }
{
    let sectors = source.sectors();
    let place = StorePlace {
        first,
        length: Some(sectors * 512),
    };
    match refusal_of(stack.config(), d, place) {
        Some(cause) => Err(StoreFault { written: 0, cause }),
        None => {
            let mut room = [0u8; ROOM];
            match store_image_by(stack, d, first, source, progress, room.as_mut_slice()) {
                Ok(written) => sync_stored(stack, written),
                Err(fault) => {
                    sync_stopped(stack);
                    Err(fault)
                }
            }
        }
    }
}

// Writes the sectors through the buffer `room`. They fit and may be written; nothing is synced.
fn store_image_by<D: BlockDev, S: BlockDev, P: Progress>(
    stack: &mut Stack<D>,
    d: DevId,
    first: u64,
    source: &mut S,
    progress: &mut P,
    room: &mut [u8],
) -> Result<u64, StoreFault>
    requires device { d.0 < length stack.old.config.devices }
    requires inside { first + (S.state source.old).size ≤ size stack.old.config (mapped d.0) }
    requires allowed { IsTrue (may_write stack.old.config (mapped d.0)) }
    requires buffer { length room.old ≡ 65536 }
    ensures ok { IfOk result (HasStoredAll d.0 first stack.old (S.state source.old) stack.new) }
    ensures err { IfErr result (StopsImage S.state d.0 first stack.old source.old stack.new source.new) }
{
    // The call provides how many sectors the device has.
    let _sectors = stack.config().sectors(d);
    let sectors = source.sectors();
    let mut done = 0;
    'pieces: while done < sectors {
        let most = aligned_len(stack.config(), d, first + done, sectors - done, MOST_PIECE);
        let bytes = &mut room[..most as usize * 512];
        if source.read(done, bytes).is_err() {
            let cause = StoreCause::Read;
            return Err(StoreFault {
                written: done,
                cause,
            });
        }
        if let Err(fault) = stack.write_piece(d, first + done, bytes) {
            let cause = StoreCause::Write(fault);
            return Err(StoreFault {
                written: done,
                cause,
            });
        }
        done += most;
        tell(progress, done, Some(sectors * 512));
    }
    Ok(done)
}
