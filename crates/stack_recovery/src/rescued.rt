//! Recovers a mapped device with a map of the sectors that were read before.
ghost use Rattle.std.specs.Prelude.{◌≡◌, ◌≤◌, ◌<◌, length, IsTrue, IfOk, IfErr};
ghost use Rattle.block_device.specs.Call.{DeviceDoes};
ghost use Rattle.stack_rules.specs.Names.{mapped, size};
ghost use Rattle.rescue_map.specs.Maps.{marks};
ghost use Rattle.stack_recovery.specs.Handing.{HandsOverPart, RescueHands};
ghost use Rattle.stack_recovery.specs.LeafReads.{CopiesOver};
ghost use Rattle.stack_recovery.specs.Recoveries.{EndsRescue, RescuesBy, counted_sectors, parties, scanned_by};

use crate::deadline::DevicePass;
use crate::fault::RecoveryFault;
use crate::listing::Listing;
use crate::recovery::{Course, go_over};
use block_device::BlockDev;
use device_adapters::Progress;
use rescue_map::{Ahead, Map};
use stack_engine::Stack;
use std::alloc::Global;

/// The counts of sectors that were read, now or before, and that are lost, and the way that the pass would go on; and the map of these
/// sectors. If the way is `Backward`, its sectors from `low` on are copied too, but neither counted nor in the map.
#[derive(Drop)]
pub struct Rescued {
    pub course: Course,
    pub map: Map,
}

/// Reads the sectors of a mapped device that the map doesn't mark as read, by single sectors or those that are lost together, and reports
/// each longest run of sectors that aren't recovered by one fault. Each readable piece is written to the same offset of `out`, by one call, as
/// soon as it is read, and nothing is called after a failed write. Lost sectors are left unchanged there.
///
/// With `no_scrape` each longest run of such sectors is read from its beginning up to the first lost one, and then from its end backwards up to
/// the last lost one. The sectors between these are reported as a loss `Unscraped`.
///
/// At its deadline the pass ends. The counts and the map are then of the sectors up to there. If the pass was about to read a run backwards, or
/// had begun to, its way says so: a later pass goes on by it if `turned` of that pass is where this one ended.
///
/// # Errors
///
/// - `NoMemory` if an allocation was refused.
/// - `Output` if `out` failed.
pub fn rescue<D: BlockDev, O: BlockDev, L: Listing, P: Progress>(
    alloc: Global,
    stack: &mut Stack<D>,
    pass: DevicePass,
    out: &mut O,
    map: &Map,
    listing: &mut L,
    progress: &mut P,
) -> Result<Rescued, RecoveryFault>
    requires device { pass.device.0 < length stack.old.config.devices }
    requires fits { length (marks map.now) ≡ size stack.old.config (mapped pass.device.0) }
    requires room { size stack.old.config (mapped pass.device.0) ≤ (O.state out.old).size }
    requires allowed { IsTrue (O.state out.old).may_write }
    ensures ok { IfOk result (RescuesBy O.state L.told pass (marks map.now) (parties stack.old out.old listing.old) (parties stack.new out.new listing.new)) }
    ensures err { IfErr result (EndsRescue O.state L.told pass (marks map.now) (parties stack.old out.old listing.old) (parties stack.new out.new listing.new)) }
    ensures handed { IfOk result (RescueHands (DeviceDoes O.state O.does) (marks map.now) pass (parties stack.old out.old listing.old) (parties stack.new out.new listing.new)) }
    ensures stopped { IfErr result (HandsOverPart (DeviceDoes O.state O.does) (marks map.now) (scanned_by pass) (parties stack.old out.old listing.old) (parties stack.new out.new listing.new)) }
    ensures called { CopiesOver D.state D.does (DeviceDoes O.state O.does) (marks map.now) pass.device.0 stack.old out.old stack.new out.new result (λ rescued. counted_sectors rescued.course.counts) }
{
    let mut noted = Some(Map::new(alloc));
    let ahead = Ahead::of_map(map);
    let course = go_over(stack, pass, out, ahead, &mut noted, listing, progress)?;
    match noted {
        Some(map) => Ok(Rescued { course, map }),
        None => Err(RecoveryFault::NoMemory),
    }
}
