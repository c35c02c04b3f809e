//! Reads a mapped device by single sectors, from its first sector to its last.
ghost use Rattle.std.specs.Prelude.{◌≡◌, ◌≤◌, ◌<◌, ◌^◌, [], length, IsTrue, IfOk, IfErr, OnOk};
ghost use Rattle.block_device.specs.Call.{DeviceDoes};
ghost use Rattle.stack_rules.specs.Names.{mapped, size};
ghost use Rattle.std.specs.Option.{is_some};
ghost use Rattle.rescue_map.specs.Maps.{marks};
ghost use Rattle.rescue_map.specs.Aheads.{marks_ahead};
ghost use Rattle.stack_recovery.specs.Handing.{HandsOverPart, HandsOverUntil};
ghost use Rattle.stack_recovery.specs.LeafReads.{CopiesOver};
ghost use Rattle.stack_recovery.specs.Recoveries.{EndsEarlyBy, GoesOverBy, AreLossesNoted, AreMarksNoted, counted_sectors, parties, scanned_by};

use crate::deadline::{DevicePass, pass_end};
use crate::fault::RecoveryFault;
use crate::listing::Listing;
use crate::losing::{lose_run, lost_run, note_end, tell_end};
use crate::notes::note;
use crate::piece::piece_at;
use crate::skimming::check_memory;
use crate::stretch::next_stretch;
use crate::tally::Tally;
use crate::trimming::{Behind, read_behind};
use crate::way::{Way, is_forward, is_past, low_of, way_lost, way_past, way_probed, way_trimmed};
use block_device::BlockDev;
use device_adapters::Progress;
use rescue_map::{Ahead, Map};
use stack_engine::Stack;

/// How many sectors were read, how many are lost, and how many are unscraped, of which no other read was tried.
#[derive(Clone, Copy, Debug, PartialEq, Eq)]
pub struct Counts {
    pub read: u64,
    pub lost: u64,
    pub untried: u64,
}

/// The counts of a pass, and the way that it would go on.
#[derive(Clone, Copy)]
pub struct Course {
    pub counts: Counts,
    pub way: Way,
}

/// The size of the longest piece in bytes.
pub(crate) const ROOM: usize = 65536;

/// Recovers a device. Sectors that were read before, by the marks ahead, aren't read again. The map, if one is made, is empty
/// at first. At its deadline the pass ends; the counts and the map are of the sectors up to there.
pub(crate) fn go_over<D: BlockDev, O: BlockDev, L: Listing, P: Progress>(
    stack: &mut Stack<D>,
    pass: DevicePass,
    out: &mut O,
    ahead: Ahead<'_>,
    noted: &mut Option<Map>,
    listing: &mut L,
    progress: &mut P,
) -> Result<Course, RecoveryFault>
    requires device { pass.device.0 < length stack.old.config.devices }
    requires fits { length (marks_ahead ahead) ≡ size stack.old.config (mapped pass.device.0) }
    requires room { size stack.old.config (mapped pass.device.0) ≤ (O.state out.old).size }
    requires allowed { IsTrue (O.state out.old).may_write }
    requires begun { AreMarksNoted noted.old [] × AreLossesNoted noted.old [] }
    ensures ok { IfOk result (GoesOverBy O.state L.told pass (marks_ahead ahead.entry) (parties stack.old out.old listing.old) noted.new (parties stack.new out.new listing.new)) }
    ensures err { IfErr result (EndsEarlyBy O.state L.told (is_some noted.old) pass (marks_ahead ahead.entry) (parties stack.old out.old listing.old) (parties stack.new out.new listing.new)) }
    ensures noted { OnOk result (is_some noted.new ≡ is_some noted.old) }
    ensures handed { IfOk result (HandsOverUntil (DeviceDoes O.state O.does) pass (marks_ahead ahead.entry) (parties stack.old out.old listing.old) noted.new (parties stack.new out.new listing.new)) }
    ensures stopped { IfErr result (HandsOverPart (DeviceDoes O.state O.does) (marks_ahead ahead.entry) (scanned_by pass) (parties stack.old out.old listing.old) (parties stack.new out.new listing.new)) }
    ensures called { CopiesOver D.state D.does (DeviceDoes O.state O.does) (marks_ahead ahead.entry) pass.device.0 stack.old out.old stack.new out.new result (λ course. counted_sectors course.counts) }
{
    // The call provides the bound on a device's sectors.
    let _fits = out.sectors();
    let mut room = [0u8; ROOM];
    go_over_by(
        stack,
        pass,
        out,
        ahead,
        noted,
        listing,
        progress,
        room.as_mut_slice(),
    )
}

/// Recovers a device through the buffer `room`.
fn go_over_by<D: BlockDev, O: BlockDev, L: Listing, P: Progress>(
    stack: &mut Stack<D>,
    pass: DevicePass,
    out: &mut O,
    mut ahead: Ahead<'_>,
    noted: &mut Option<Map>,
    listing: &mut L,
    progress: &mut P,
    room: &mut [u8],
) -> Result<Course, RecoveryFault>
    requires device { pass.device.0 < length stack.old.config.devices }
    requires fits { length (marks_ahead ahead) ≡ size stack.old.config (mapped pass.device.0) }
    requires room { size stack.old.config (mapped pass.device.0) ≤ (O.state out.old).size }
    requires allowed { IsTrue (O.state out.old).may_write }
    requires begun { AreMarksNoted noted.old [] × AreLossesNoted noted.old [] }
    requires buffer { length room.old ≡ 65536 }
    requires few { size stack.old.config (mapped pass.device.0) ≤ 2 ^ 54 }
    ensures ok { IfOk result (GoesOverBy O.state L.told pass (marks_ahead ahead.entry) (parties stack.old out.old listing.old) noted.new (parties stack.new out.new listing.new)) }
    ensures err { IfErr result (EndsEarlyBy O.state L.told (is_some noted.old) pass (marks_ahead ahead.entry) (parties stack.old out.old listing.old) (parties stack.new out.new listing.new)) }
    ensures noted { OnOk result (is_some noted.new ≡ is_some noted.old) }
    ensures handed { IfOk result (HandsOverUntil (DeviceDoes O.state O.does) pass (marks_ahead ahead.entry) (parties stack.old out.old listing.old) noted.new (parties stack.new out.new listing.new)) }
    ensures stopped { IfErr result (HandsOverPart (DeviceDoes O.state O.does) (marks_ahead ahead.entry) (scanned_by pass) (parties stack.old out.old listing.old) (parties stack.new out.new listing.new)) }
    ensures called { CopiesOver D.state D.does (DeviceDoes O.state O.does) (marks_ahead ahead.entry) pass.device.0 stack.old out.old stack.new out.new result (λ course. counted_sectors course.counts) }
{
    let d = pass.device;
    let sectors = stack.config().sectors(d);
    let mut tally = Tally::new();
    let mut way = Way::Forward;
    let mut at = 0;
    'pieces: while at < pass_end(pass.deadline, way, at, sectors, progress) {
        let run = next_stretch(&mut ahead);
        if is_past(run.had, way, at) {
            note(noted, run.count, true, false)?;
            tally.close(listing);
            ahead.pass(run.count);
            at += run.count;
            way = way_past(pass, way, at);
        } else if is_forward(way) {
            tell(progress, at, sectors);
            let piece = piece_at(stack.config(), d, at, at + run.count, 1);
            let count = u64::from(piece.count);
            let bytes = &mut room[..piece.count as usize * 512];
            match stack.read_bytes(d, at, bytes) {
                Ok(()) => {
                    note(noted, count, true, false)?;
                    out.write(at, bytes)?;
                    tally.close(listing);
                    ahead.pass(count);
                    at += count;
                }
                Err(fault) => {
                    check_memory(fault)?;
                    let lost = lost_run(at, count, fault);
                    lose_run(noted, &mut tally, listing, lost)?;
                    ahead.pass(count);
                    at += count;
                    way = way_lost(pass.no_scrape);
                }
            }
        } else {
            let end = at + run.count;
            let low = low_of(way, end);
            tell(
                progress,
                end.saturating_sub(low.saturating_sub(at)),
                sectors,
            );
            let behind = read_behind(stack, d, at, low, out, room)?;
            match behind {
                Behind::Copied(first) => way = way_probed(way, first, low),
                Behind::Lost(last) => {
                    note_end(noted, last)?;
                    tell_end(&mut tally, listing, at, last);
                    ahead.pass(last.before + last.count);
                    at += last.before + last.count;
                    way = way_trimmed(way);
                }
            }
        }
    }
    let counts = tally.finish(listing, at);
    Ok(Course { counts, way })
}

/// Reports progress in bytes.
pub(crate) fn tell<P: Progress>(progress: &mut P, done: u64, all: u64) {
    progress.tell(done.saturating_mul(512), Some(all.saturating_mul(512)));
}
