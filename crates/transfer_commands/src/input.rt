//! Writes the bytes of a reader to a mapped device.
ghost use Rattle.std.specs.Prelude.{◌≡◌, ◌≢◌, ◌+◌, ◌/◌, ◌%◌, ◌≤◌, ◌<◌, ◌^◌, length, IsTrue, None, Err, IsOk, OnOk, IfOk, IfErr};
ghost use Rattle.stack_rules.specs.Names.{mapped, may_write, size};
ghost use Rattle.stack_engine.specs.WritePieces.{EachWrite};
ghost use Rattle.transfer_commands.specs.Stores.{EndsStoreBy, EndsThere, GoesFurther, HasStoredBy, IsLastEnd, IsSynced, IsSyncTried, IsStoreUnsynced, StopsStoreBy, StoresBy, StoresLast, StoresPiece, put_refusal};

use crate::filling::fill;
use crate::stream_fault::{StoreCause, StoreFault};
use alignment::aligned_len;
use block_device::{BlockDev, SyncDev};
use device_adapters::Progress;
use program_io::Counted;
use stack_config::{Config, DevId};
use stack_engine::{IoFault, Stack};
use std::io::Read;

/// A sector of a mapped device, counted from 0, from which bytes are written; and how many bytes there are, if this is known.
#[derive(Clone, Copy, Debug, PartialEq, Eq)]
pub struct StorePlace {
    pub first: u64,
    pub length: Option<u64>,
}

/// The size of the longest piece in bytes.
pub(crate) const ROOM: usize = 65536;

pub(crate) const MOST_PIECE: u64 = 128;

// Why nothing is written, by what is known before the first read.
pub(crate) fn refusal_of(config: &Config, d: DevId, place: StorePlace) -> Option<StoreCause>
    requires { d.0 < length config.now.devices }
    ensures { result ≡ put_refusal config.now d.0 place }
{
    if !config.writable(d) {
        return Some(StoreCause::ReadOnly);
    }
    let sectors = config.sectors(d);
    if sectors < place.first {
        return Some(StoreCause::Range);
    }
    let bytes = place.length?;
    if bytes % 512 != 0 {
        return Some(StoreCause::Length);
    }
    if sectors - place.first < bytes / 512 {
        return Some(StoreCause::Range);
    }
    None
}

/// Writes all bytes of a reader to a mapped device, and syncs them. A request that can't succeed is refused before anything is
/// read or written.
///
/// Otherwise whole sectors are written up to the first fault, and synced. If that sync fails too, the first fault is returned.
///
/// # Errors
///
/// `StoreFault` with the cause, and how many sectors were written.
pub fn store<D: SyncDev, R: Read, P: Progress>(
    stack: &mut Stack<D>,
    d: DevId,
    place: StorePlace,
    reader: &mut Counted<R>,
    progress: &mut P,
) -> Result<u64, StoreFault>
    requires { d.0 < length stack.old.config.devices }
    ensures ok { IfOk result (StoresBy R.remaining d.0 place stack.old reader.old stack.new reader.new) }
    ensures err { IfErr result (EndsStoreBy R.remaining d.0 place stack.old reader.old stack.new reader.new) }
    ensures fits { IsOk result → put_refusal stack.old.config d.0 place ≡ None }
    ensures untouched { put_refusal stack.old.config d.0 place ≢ None → (reader.new ≡ reader.old) × (stack.new ≡ stack.old) }
{
    match refusal_of(stack.config(), d, place) {
        Some(cause) => Err(StoreFault { written: 0, cause }),
        None => {
            let mut room = [0u8; ROOM];
            match store_by(stack, d, place, reader, progress, room.as_mut_slice()) {
                Ok(written) => sync_stored(stack, written),
                Err(fault) => {
                    sync_stopped(stack);
                    Err(fault)
                }
            }
        }
    }
}

// Syncs what was written.
pub(crate) fn sync_stored<D: SyncDev>(stack: &mut Stack<D>, written: u64) -> Result<u64, StoreFault>
    ensures ok { IfOk result (λ n. (n ≡ written) × IsSynced stack.old stack.new) }
    ensures err { IfErr result (λ fault. (fault.written ≡ written) × IsStoreUnsynced fault.cause stack.old stack.new) }
{
    match stack.sync() {
        Ok(()) => Ok(written),
        Err(fault) => {
            let cause = StoreCause::Sync(fault);
            Err(StoreFault { written, cause })
        }
    }
}

// Syncs what was written before a fault. The caller returns that fault, so the sync's own is dropped.
pub(crate) fn sync_stopped<D: SyncDev>(stack: &mut Stack<D>)
    ensures { IsSyncTried stack.old stack.new }
{
    let _synced = stack.sync();
}

// Writes the bytes through the buffer `room`. The first sector is within the device, which is writable; nothing is synced.
fn store_by<D: BlockDev, R: Read, P: Progress>(
    stack: &mut Stack<D>,
    d: DevId,
    place: StorePlace,
    reader: &mut Counted<R>,
    progress: &mut P,
    room: &mut [u8],
) -> Result<u64, StoreFault>
    requires device { d.0 < length stack.old.config.devices }
    requires inside { place.first ≤ size stack.old.config (mapped d.0) }
    requires allowed { IsTrue (may_write stack.old.config (mapped d.0)) }
    requires buffer { length room.old ≡ 65536 }
    ensures ok { IfOk result (HasStoredBy R.remaining d.0 place stack.old reader.old stack.new reader.new) }
    ensures err { IfErr result (StopsStoreBy R.remaining d.0 place stack.old reader.old stack.new reader.new) }
{
    let sectors = stack.config().sectors(d);
    let mut at = place.first;
    'pieces: while at < sectors {
        let written = at - place.first;
        let most = aligned_len(stack.config(), d, at, sectors - at, MOST_PIECE);
        let size = most as usize * 512;
        let bytes = &mut room[..size];
        let Ok(count) = fill(reader, bytes) else {
            let cause = StoreCause::Read;
            return Err(StoreFault { written, cause });
        };
        if count < size {
            return store_last(stack, d, at, written, &bytes[..count]);
        }
        if let Err(fault) = stack.write_piece(d, at, bytes) {
            let cause = StoreCause::Write(fault);
            return Err(StoreFault { written, cause });
        }
        at += most;
        tell(progress, at - place.first, place.length);
    }
    probe(reader, at - place.first)
}

// The device is full: checks that the reader ends here.
fn probe<R: Read>(reader: &mut Counted<R>, written: u64) -> Result<u64, StoreFault>
    ensures ok { IfOk result (EndsThere R.remaining reader.old reader.new written) }
    ensures err { IfErr result (GoesFurther R.remaining reader.old reader.new written) }
{
    let mut byte = [0u8; 1];
    match fill(reader, byte.as_mut_slice()) {
        Ok(0) => Ok(written),
        Ok(_) => {
            let cause = StoreCause::TooLong;
            Err(StoreFault { written, cause })
        }
        Err(_) => {
            let cause = StoreCause::Read;
            Err(StoreFault { written, cause })
        }
    }
}

// Writes whole sectors, perhaps none.
fn write_some<D: BlockDev>(
    stack: &mut Stack<D>,
    d: DevId,
    at: u64,
    bytes: &[u8],
) -> Result<(), IoFault>
    requires whole { length bytes.now % 512 ≡ 0 }
    requires few { length bytes.now / 512 ≤ 128 }
    requires inside { at + length bytes.now / 512 ≤ size stack.old.config (mapped d.0) }
    requires allowed { IsTrue (may_write stack.old.config (mapped d.0)) }
    ensures ok { OnOk result (StoresPiece stack.old d.0 at bytes.now stack.new) }
    ensures err { IfErr result (λ fault. EachWrite stack.old d.0 at bytes.now (Err fault) stack.new) }
{
    if bytes.is_empty() {
        return Ok(());
    }
    stack.write_piece(d, at, bytes)
}

// Writes the last bytes, after `written` sectors.
fn store_last<D: BlockDev>(
    stack: &mut Stack<D>,
    d: DevId,
    at: u64,
    written: u64,
    bytes: &[u8],
) -> Result<u64, StoreFault>
    requires few { length bytes.now / 512 ≤ 128 }
    requires inside { at + length bytes.now / 512 ≤ size stack.old.config (mapped d.0) }
    requires allowed { IsTrue (may_write stack.old.config (mapped d.0)) }
    requires room { written + length bytes.now / 512 < 2 ^ 64 }
    ensures ok { IfOk result (StoresLast d.0 at written bytes.now stack.old stack.new) }
    ensures err { IfErr result (IsLastEnd d.0 at written bytes.now stack.old stack.new) }
{
    let whole = bytes.len() / 512;
    if let Err(fault) = write_some(stack, d, at, &bytes[..whole * 512]) {
        let cause = StoreCause::Write(fault);
        return Err(StoreFault { written, cause });
    }
    let written = written + whole as u64;
    if bytes.len() % 512 != 0 {
        let cause = StoreCause::PartSector;
        return Err(StoreFault { written, cause });
    }
    Ok(written)
}

// Reports progress: so many sectors of so many bytes.
pub(crate) fn tell<P: Progress>(progress: &mut P, done: u64, all: Option<u64>) {
    progress.tell(done.saturating_mul(512), all);
}
