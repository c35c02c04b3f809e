//! Passes over a mapped device in large pieces, which skip ahead after failed reads.
ghost use Rattle.std.specs.Prelude.{◌≡◌, ◌≢◌, ◌+◌, ◌++◌, ◌≤◌, ◌<◌, ◌^◌, [], false, length, replicate, true, IsTrue, IfOk, IfErr, OnErr, OnOk};
ghost use Rattle.allocation.specs.Refusal.{IsOutOfMemory};
ghost use Rattle.block_device.specs.Call.{DeviceDoes};
ghost use Rattle.stack_rules.specs.Names.{mapped, size};
ghost use Rattle.rescue_map.specs.Aheads.{marks_ahead};
ghost use Rattle.rescue_map.specs.Maps.{losts, marks};
ghost use Rattle.stack_recovery.specs.FirstPasses.{EndsSkimBy, HandsSkimsPart, HandsSkimsUntil, SkimsBy, skimmed, transfer};
ghost use Rattle.stack_recovery.specs.LeafReads.{CopiesOver};
ghost use Rattle.stack_recovery.specs.declared.fault.RecoveryFault.TheVariants as recovery_fault;

use crate::deadline::{FirstPass, pass_end};
use crate::fault::RecoveryFault;
use crate::lost_run::is_same;
use crate::notes::mark;
use crate::piece::piece_at;
use crate::piece_limit::MOST_PIECE;
use crate::recovery::{ROOM, tell};
use crate::skip::{LEAST_SKIP, longer_skip};
use crate::stretch::next_stretch;
use crate::way::Way;
use block_device::BlockDev;
use device_adapters::Progress;
use rescue_map::{Ahead, Map};
use stack_engine::{IoFault, Stack};
use std::alloc::Global;

/// The map of what was read up to the end of a pass in large pieces, in which the failed pieces are bad, and how many sectors are
/// skipped after the next failed read.
#[derive(Drop)]
pub struct Skimmed {
    pub map: Map,
    pub skip: u64,
}

/// Reads the sectors of a mapped device that the map doesn't mark as read, from the first to the last, and returns the map of
/// what is read afterwards. Each piece of at most 128 sectors that can be read is written to the same offset of `out`, by one
/// call.
///
/// After a failed read the pass skips ahead, so that a device that is about to fail is first read where it can be: the sectors
/// that `pass` says, at first [`LEAST_SKIP`], and twice as many after each further failed read, up to `most` of the pass. After a piece
/// that can be read it begins with [`LEAST_SKIP`] again. A skip ends before the next sector that was read before. If `most` is 0, as in a
/// second pass, nothing is skipped. Nothing is lost by these passes: `rescue` reads what they left.
///
/// At its deadline the pass ends. Its map then has only the sectors up to there, and a pass that goes on there skips as many
/// sectors as this one would.
///
/// # Errors
///
/// - `NoMemory` if an allocation was refused.
/// - `Output` if `out` failed.
pub fn skim<D: BlockDev, O: BlockDev, P: Progress>(
    alloc: Global,
    stack: &mut Stack<D>,
    pass: FirstPass,
    out: &mut O,
    map: &Map,
    progress: &mut P,
) -> Result<Skimmed, RecoveryFault>
    requires device { pass.device.0 < length stack.old.config.devices }
    requires fits { length (marks map.now) ≡ size stack.old.config (mapped pass.device.0) }
    requires room { size stack.old.config (mapped pass.device.0) ≤ (O.state out.old).size }
    requires allowed { IsTrue (O.state out.old).may_write }
    ensures ok { IfOk result (SkimsBy O.state pass (marks map.now) (transfer stack.old out.old) (transfer stack.new out.new)) }
    ensures err { IfErr result (EndsSkimBy O.state pass (marks map.now) (transfer stack.old out.old) (transfer stack.new out.new)) }
    ensures handed { IfOk result (HandsSkimsUntil (DeviceDoes O.state O.does) (marks map.now) pass.device.0 (transfer stack.old out.old) (transfer stack.new out.new)) }
    ensures stopped { IfErr result (HandsSkimsPart (DeviceDoes O.state O.does) (marks map.now) pass.device.0 (transfer stack.old out.old) (transfer stack.new out.new)) }
    ensures called { CopiesOver D.state D.does (DeviceDoes O.state O.does) (marks map.now) pass.device.0 stack.old out.old stack.new out.new result (λ made. length (marks made.map)) }
{
    skim_ahead(alloc, stack, pass, out, Ahead::of_map(map), progress)
}

/// Runs the pass by the marks ahead.
pub(crate) fn skim_ahead<D: BlockDev, O: BlockDev, P: Progress>(
    alloc: Global,
    stack: &mut Stack<D>,
    pass: FirstPass,
    out: &mut O,
    ahead: Ahead<'_>,
    progress: &mut P,
) -> Result<Skimmed, RecoveryFault>
    requires device { pass.device.0 < length stack.old.config.devices }
    requires fits { length (marks_ahead ahead) ≡ size stack.old.config (mapped pass.device.0) }
    requires room { size stack.old.config (mapped pass.device.0) ≤ (O.state out.old).size }
    requires allowed { IsTrue (O.state out.old).may_write }
    ensures ok { IfOk result (SkimsBy O.state pass (marks_ahead ahead.entry) (transfer stack.old out.old) (transfer stack.new out.new)) }
    ensures err { IfErr result (EndsSkimBy O.state pass (marks_ahead ahead.entry) (transfer stack.old out.old) (transfer stack.new out.new)) }
    ensures handed { IfOk result (HandsSkimsUntil (DeviceDoes O.state O.does) (marks_ahead ahead.entry) pass.device.0 (transfer stack.old out.old) (transfer stack.new out.new)) }
    ensures stopped { IfErr result (HandsSkimsPart (DeviceDoes O.state O.does) (marks_ahead ahead.entry) pass.device.0 (transfer stack.old out.old) (transfer stack.new out.new)) }
    ensures called { CopiesOver D.state D.does (DeviceDoes O.state O.does) (marks_ahead ahead.entry) pass.device.0 stack.old out.old stack.new out.new result (λ made. length (marks made.map)) }
{
    // The call provides the bound on a device's sectors.
    let _fits = out.sectors();
    let mut map = Map::new(alloc);
    let mut room = [0u8; ROOM];
    let bytes = room.as_mut_slice();
    let skip = skim_by(stack, pass, out, ahead, &mut map, progress, bytes)?;
    Ok(Skimmed { map, skip })
}

/// Runs the pass through the buffer `room`, and returns how many sectors are skipped after the next failed read.
fn skim_by<D: BlockDev, O: BlockDev, P: Progress>(
    stack: &mut Stack<D>,
    pass: FirstPass,
    out: &mut O,
    mut ahead: Ahead<'_>,
    map: &mut Map,
    progress: &mut P,
    room: &mut [u8],
) -> Result<u64, RecoveryFault>
    requires device { pass.device.0 < length stack.old.config.devices }
    requires fits { length (marks_ahead ahead) ≡ size stack.old.config (mapped pass.device.0) }
    requires room { size stack.old.config (mapped pass.device.0) ≤ (O.state out.old).size }
    requires allowed { IsTrue (O.state out.old).may_write }
    requires begun { map.old ≡ [] }
    requires buffer { length room.old ≡ 65536 }
    requires few { size stack.old.config (mapped pass.device.0) ≤ 2 ^ 54 }
    ensures ok { IfOk result (λ skip. SkimsBy O.state pass (marks_ahead ahead.entry) (transfer stack.old out.old) (transfer stack.new out.new) (skimmed map.new skip)) }
    ensures err { IfErr result (EndsSkimBy O.state pass (marks_ahead ahead.entry) (transfer stack.old out.old) (transfer stack.new out.new)) }
    ensures handed { IfOk result (λ skip. HandsSkimsUntil (DeviceDoes O.state O.does) (marks_ahead ahead.entry) pass.device.0 (transfer stack.old out.old) (transfer stack.new out.new) (skimmed map.new skip)) }
    ensures stopped { IfErr result (HandsSkimsPart (DeviceDoes O.state O.does) (marks_ahead ahead.entry) pass.device.0 (transfer stack.old out.old) (transfer stack.new out.new)) }
    ensures called { CopiesOver D.state D.does (DeviceDoes O.state O.does) (marks_ahead ahead.entry) pass.device.0 stack.old out.old stack.new out.new result (λ skip. length (marks map.new)) }
{
    let sectors = stack.config().sectors(pass.device);
    let mut skip = pass.skip;
    let mut at = 0;
    'pieces: while at < pass_end(pass.deadline, Way::Forward, at, sectors, progress) {
        let run = next_stretch(&mut ahead);
        if run.had {
            mark(map, run.count, true, false)?;
            ahead.pass(run.count);
            at += run.count;
        } else {
            tell(progress, at, sectors);
            let piece = piece_at(stack.config(), pass.device, at, at + run.count, MOST_PIECE);
            let count = u64::from(piece.count);
            let bytes = &mut room[..piece.count as usize * 512];
            match stack.read_bytes(pass.device, at, bytes) {
                Ok(()) => {
                    mark(map, count, true, false)?;
                    out.write(at, bytes)?;
                    ahead.pass(count);
                    at += count;
                    skip = LEAST_SKIP.min(pass.most);
                }
                Err(fault) => {
                    check_memory(fault)?;
                    let skipped = skip.min(run.count - count);
                    leave(map, count, skipped)?;
                    ahead.pass(count + skipped);
                    at += count + skipped;
                    skip = longer_skip(skip, pass.most);
                }
            }
        }
    }
    Ok(skip)
}

// Records in the map that a read of the next `count` sectors failed, and that `skipped` sectors after them weren't read.
fn leave(map: &mut Map, count: u64, skipped: u64) -> Result<(), RecoveryFault>
    requires some { 1 ≤ count }
    requires room { length (marks map.old) + count + skipped ≤ 2 ^ 54 }
    ensures ok { OnOk result (marks map.new ≡ marks map.old ++ replicate count false ++ replicate skipped false) }
    ensures failed { OnOk result (losts map.new ≡ losts map.old ++ replicate count true ++ replicate skipped false) }
    ensures err { IfErr result (λ fault. (fault ≡ recovery_fault.NoMemory) × IsOutOfMemory 1) }
{
    mark(map, count, false, true)?;
    if skipped > 0 {
        mark(map, skipped, false, false)?;
    }
    Ok(())
}

/// Returns `NoMemory` if a read ran out of memory, which no other pass mends.
pub(crate) fn check_memory(fault: IoFault) -> Result<(), RecoveryFault>
    ensures ok { OnOk result (fault ≢ IoFault.NoMemory) }
    ensures err { IfErr result (λ error. error ≡ recovery_fault.NoMemory) }
    ensures memory { OnErr result (fault ≡ IoFault.NoMemory) }
{
    if is_same(fault, IoFault::NoMemory) {
        return Err(RecoveryFault::NoMemory);
    }
    Ok(())
}
