//! Reads the sectors of a turn.
ghost use Rattle.std.specs.Prelude.{◌≡◌, ◌≤◌, ◌<◌, length, IsTrue, IfOk, IfErr};
ghost use Rattle.rescue_map.specs.Maps.{marks};
ghost use Rattle.stack_rules.specs.Names.{mapped, size};
ghost use Rattle.stack_recovery.specs.FirstPasses.{EndsSkimBy, transfer};
ghost use Rattle.stack_recovery.specs.Recoveries.{EndsRescue, parties};
ghost use Rattle.scan_commands.specs.TurnCalls.{EndsTurnRead, ReadsLeftBy, ReadsTurnBy, SkimsLeftBy};

use crate::map_file::MapPath;
use crate::phase::{Phase, is_trim, most_skipped};
use block_device::{BlockDev, SyncDev};
use device_adapters::Progress;
use rescue_map::{Map, Span};
use stack_config::DevId;
use stack_engine::Stack;
use stack_recovery::{Deadline, DevicePass, FirstPass, Listing, RecoveryFault, Way, rescue, skim};
use std::alloc::Global;

/// A turn of a pass: whether a later pass scrapes, its sectors, the map before it, the map that the turn reads by, how many sectors the pass
/// skips after its next failed read, the first sector of a run that the turn before would have read backwards (0 if none), and when the turn
/// ends early.
#[derive(Clone, Copy)]
pub(crate) struct NextTurn<'a> {
    pub(crate) phase: Phase,
    pub(crate) no_scrape: bool,
    pub(crate) span: Span,
    pub(crate) sectors: u64,
    pub(crate) file: Option<MapPath<'a>>,
    pub(crate) map: &'a Map,
    pub(crate) wanted: &'a Map,
    pub(crate) skip: u64,
    pub(crate) turned: u64,
    pub(crate) deadline: Option<Deadline>,
}

/// The map of the sectors that were read, in which the failed pieces of a pass in large pieces are bad, how many sectors the pass skips
/// after its next failed read, and the way that it would go on.
#[derive(Drop)]
pub(crate) struct ReadMap {
    pub(crate) map: Map,
    pub(crate) skip: u64,
    pub(crate) way: Way,
}

/// Reads the sectors of a turn until its time is up.
///
/// # Errors
///
/// - `NoMemory` if an allocation was refused.
/// - `Output` if `out` failed.
pub(crate) fn read_turn<D: BlockDev, O: SyncDev, L: Listing, P: Progress>(
    alloc: Global,
    stack: &mut Stack<D>,
    d: DevId,
    out: &mut O,
    turn: NextTurn<'_>,
    listing: &mut L,
    progress: &mut P,
) -> Result<ReadMap, RecoveryFault>
    requires device { d.0 < length stack.old.config.devices }
    requires fits { length (marks turn.wanted.now) ≡ size stack.old.config (mapped d.0) }
    requires room { size stack.old.config (mapped d.0) ≤ (O.state out.old).size }
    requires allowed { IsTrue (O.state out.old).may_write }
    ensures ok { IfOk result (ReadsTurnBy O.state L.told d.0 turn.entry (parties stack.old out.old listing.old) (parties stack.new out.new listing.new)) }
    ensures err { IfErr result (EndsTurnRead O.state L.told d.0 turn.entry (parties stack.old out.old listing.old) (parties stack.new out.new listing.new)) }
{
    let first = FirstPass {
        device: d,
        skip: turn.skip,
        most: most_skipped(turn.phase, stack.config().sectors(d)),
        deadline: turn.deadline,
    };
    let pass = DevicePass {
        device: d,
        no_scrape: is_trim(turn.phase),
        turned: turn.turned,
        deadline: turn.deadline,
    };
    match turn.phase {
        Phase::Skim => skim_left(alloc, stack, first, out, turn.wanted, progress),
        Phase::Sweep => skim_left(alloc, stack, first, out, turn.wanted, progress),
        Phase::Trim => read_left(alloc, stack, pass, out, turn.wanted, listing, progress),
        Phase::Scrape => read_left(alloc, stack, pass, out, turn.wanted, listing, progress),
        Phase::Retry => read_left(alloc, stack, pass, out, turn.wanted, listing, progress),
    }
}

// Reads the sectors that a map doesn't mark as read, in a pass in large pieces.
fn skim_left<D: BlockDev, O: SyncDev, P: Progress>(
    alloc: Global,
    stack: &mut Stack<D>,
    pass: FirstPass,
    out: &mut O,
    wanted: &Map,
    progress: &mut P,
) -> Result<ReadMap, RecoveryFault>
    requires device { pass.device.0 < length stack.old.config.devices }
    requires fits { length (marks wanted.now) ≡ size stack.old.config (mapped pass.device.0) }
    requires room { size stack.old.config (mapped pass.device.0) ≤ (O.state out.old).size }
    requires allowed { IsTrue (O.state out.old).may_write }
    ensures ok { IfOk result (SkimsLeftBy O.state pass (marks wanted.now) (transfer stack.old out.old) (transfer stack.new out.new)) }
    ensures err { IfErr result (EndsSkimBy O.state pass (marks wanted.now) (transfer stack.old out.old) (transfer stack.new out.new)) }
{
    let skimmed = skim(alloc, stack, pass, out, wanted, progress)?;
    Ok(ReadMap {
        map: skimmed.map,
        skip: skimmed.skip,
        way: Way::Forward,
    })
}

// Reads the sectors that a map doesn't mark as read, in a pass by single sectors.
fn read_left<D: BlockDev, O: SyncDev, L: Listing, P: Progress>(
    alloc: Global,
    stack: &mut Stack<D>,
    pass: DevicePass,
    out: &mut O,
    wanted: &Map,
    listing: &mut L,
    progress: &mut P,
) -> Result<ReadMap, RecoveryFault>
    requires device { pass.device.0 < length stack.old.config.devices }
    requires fits { length (marks wanted.now) ≡ size stack.old.config (mapped pass.device.0) }
    requires room { size stack.old.config (mapped pass.device.0) ≤ (O.state out.old).size }
    requires allowed { IsTrue (O.state out.old).may_write }
    ensures ok { IfOk result (ReadsLeftBy O.state L.told pass (marks wanted.now) (parties stack.old out.old listing.old) (parties stack.new out.new listing.new)) }
    ensures err { IfErr result (EndsRescue O.state L.told pass (marks wanted.now) (parties stack.old out.old listing.old) (parties stack.new out.new listing.new)) }
{
    let rescued = rescue(alloc, stack, pass, out, wanted, listing, progress)?;
    Ok(ReadMap {
        map: rescued.map,
        skip: 0,
        way: rescued.course.way,
    })
}
