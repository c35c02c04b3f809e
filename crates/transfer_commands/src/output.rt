//! Writes the bytes of a mapped device to a writer.
ghost use Rattle.std.specs.Prelude.{◌≡◌, ◌≢◌, ◌↔◌, ◌+◌, ◌≤◌, ◌<◌, length, IsTrue, OnOk, IfErr};
ghost use Rattle.stack_rules.specs.Names.{mapped, size};
ghost use Rattle.transfer_commands.specs.Cats.{CatsBy, EndsCatBy};

use crate::stream_fault::CatFault;
use block_device::BlockDev;
use device_adapters::Progress;
use program_io::Counted;
use stack_config::{Config, DevId};
use stack_engine::{IoFault, Stack};
use stack_recovery::{PieceLimit, is_same, piece_at};
use std::io::Write;

/// A range of sectors of a mapped device, counted from 0.
#[derive(Clone, Copy, Debug, PartialEq, Eq)]
pub struct SectorRange {
    pub first: u64,
    pub count: u64,
}

/// The size of the longest piece in bytes.
const ROOM: usize = 65536;

// Whether the range is within the device.
fn is_inside(config: &Config, d: DevId, range: SectorRange) -> bool
    requires { d.0 < length config.now.devices }
    ensures { IsTrue result ↔ (range.first + range.count ≤ size config.now (mapped d.0)) }
{
    let sectors = config.sectors(d);
    range.first <= sectors && range.count <= sectors - range.first
}

/// Writes the bytes of a range of sectors to a writer, and nothing else. Writing stops before the first lost sector: if a piece
/// can't be read whole, the sectors before the lost one are read again in shorter pieces.
///
/// # Errors
///
/// - `Range` if the range isn't within the device; nothing was written.
/// - `Read` if the next sector is lost, or memory ran out.
/// - `Write` if the writer failed.
pub fn cat<D: BlockDev, W: Write, P: Progress>(
    stack: &mut Stack<D>,
    d: DevId,
    range: SectorRange,
    writer: &mut Counted<W>,
    progress: &mut P,
) -> Result<(), CatFault>
    requires { d.0 < length stack.old.config.devices }
    ensures ok { OnOk result (CatsBy W.contents d.0 range stack.old writer.old stack.new writer.new) }
    ensures err { IfErr result (EndsCatBy W.contents d.0 range stack.old writer.old stack.new writer.new) }
    ensures inside { OnOk result (range.first + range.count ≤ size stack.old.config (mapped d.0)) }
    ensures untouched { result ≡ Err CatFault.Range → writer.new ≡ writer.old }
{
    if !is_inside(stack.config(), d, range) {
        return Err(CatFault::Range);
    }
    let mut room = [0u8; ROOM];
    cat_by(stack, d, range, writer, progress, room.as_mut_slice())
}

// Writes the bytes through the buffer `room`. The range is within the device.
fn cat_by<D: BlockDev, W: Write, P: Progress>(
    stack: &mut Stack<D>,
    d: DevId,
    range: SectorRange,
    writer: &mut Counted<W>,
    progress: &mut P,
    room: &mut [u8],
) -> Result<(), CatFault>
    requires device { d.0 < length stack.old.config.devices }
    requires inside { range.first + range.count ≤ size stack.old.config (mapped d.0) }
    requires buffer { length room.old ≡ 65536 }
    ensures ok { OnOk result (CatsBy W.contents d.0 range stack.old writer.old stack.new writer.new) }
    ensures err { IfErr result (EndsCatBy W.contents d.0 range stack.old writer.old stack.new writer.new) }
    ensures other { result ≢ Err CatFault.Range }
{
    let sectors = stack.config().sectors(d);
    let end = range.first + range.count;
    let mut piece_limit = PieceLimit::new();
    let mut at = range.first;
    'pieces: while at < end {
        let piece = piece_at(stack.config(), d, at, end, piece_limit.most);
        let count = u64::from(piece.count);
        let bytes = &mut room[..piece.count as usize * 512];
        match stack.read_bytes(d, at, bytes) {
            Ok(()) => {
                writer.put(bytes)?;
                at += count;
                piece_limit = piece_limit.after_bytes(piece.count, at);
                tell(progress, at - range.first, range.count);
            }
            Err(fault) => {
                if is_same(fault, IoFault::NoMemory) {
                    return Err(CatFault::Read(fault));
                }
                if piece.alike {
                    return Err(CatFault::Read(fault));
                }
                piece_limit = PieceLimit::after_failure(piece.count, at + count);
            }
        }
    }
    Ok(())
}

// Reports progress in sectors.
fn tell<P: Progress>(progress: &mut P, done: u64, all: u64) {
    progress.tell(done.saturating_mul(512), Some(all.saturating_mul(512)));
}
