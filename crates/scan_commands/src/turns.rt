//! Reads a mapped device in turns. After each turn its map file, if there is one, is replaced.
ghost use Rattle.std.specs.Prelude.{◌≡◌, ◌+◌, ◌≤◌, ◌<◌, length, option_map, IsTrue, IfOk, IfErr, OnErr, OnOk};
ghost use Rattle.rescue_map.specs.Maps.{marks};
ghost use Rattle.stack_rules.specs.Names.{mapped, size};
ghost use Rattle.stack_recovery.specs.Recoveries.{parties};
ghost use Rattle.scan_commands.specs.MapFiles.{map_path_of};
ghost use Rattle.scan_commands.specs.Turns.{IsSpan, IsTurnDeadline, KeepsMap, asked_marks, kept_len, synced_by, turn_len};
ghost use Rattle.scan_commands.specs.TurnEnds.{FailsToSyncBy, LeavesMap};
ghost use Rattle.scan_commands.specs.TurnCalls.{GoesOn, ReadsByFile, StopsByFile, StopsTurn, TakesTurn};

use crate::map_file::{MapFile, MapPath};
use crate::phase::{most_skipped, step_of};
use crate::rescue_fault::PassFault;
use crate::turn_map::{asked, stepped_backwards, turned_by};
use crate::turn_reads::{NextTurn, read_turn};
use block_device::{BlockDev, DeviceFault, SyncDev};
use device_adapters::Progress;
use image_files::Images;
use rescue_map::{Map, Span, is_had, print_map, sectors_of, stepped};
use stack_config::DevId;
use stack_engine::Stack;
use stack_recovery::{Deadline, LEAST_SKIP, Listing};
use std::alloc::Global;

const LEAST_TURN: u64 = 131_072;

// A turn has whole groups of eight sectors, since units and data blocks have at most as many.
const GROUP: u64 = 8;

const MOST_TURNS: u64 = 65_536;

// After so many seconds a turn ends early.
const TURN_SECONDS: u64 = 30;

// How many sectors a turn covers after which a map file is replaced, of a device of so many.
#[tactic(auto, unfolding(crate::specs::Turns::kept_len))]
fn kept_len(sectors: u64) -> u64
    ensures value { result ≡ kept_len sectors }
    ensures some { 1 ≤ result }
{
    LEAST_TURN.max((sectors / (MOST_TURNS * GROUP) + 1) * GROUP)
}

// How many sectors one turn covers, of a device of so many: all if there is no map file.
fn turn_len(file: Option<MapPath<'_>>, sectors: u64) -> u64
    requires { 1 ≤ sectors }
    ensures value { result ≡ turn_len (option_map map_path_of file.entry) sectors }
    ensures some { 1 ≤ result }
{
    match file {
        None => sectors,
        Some(_kept) => kept_len(sectors),
    }
}

// When a turn ends early that begins at sector `first`: never if there is no map file.
fn turn_deadline<P: Progress>(
    file: Option<MapPath<'_>>,
    first: u64,
    progress: &mut P,
) -> Option<Deadline>
    ensures { IsTurnDeadline (option_map map_path_of file.entry) first result }
{
    match file {
        None => None,
        Some(_kept) => {
            let seconds = progress.seconds().saturating_add(TURN_SECONDS);
            Some(Deadline { first, seconds })
        }
    }
}

// Syncs the other device, if there is a map file.
fn sync_kept<O: SyncDev>(file: Option<MapPath<'_>>, out: &mut O) -> Result<(), DeviceFault>
    ensures ok { OnOk result (O.state out.new ≡ synced_by (option_map map_path_of file.entry) (O.state out.old)) }
    ensures err { OnErr result (FailsToSyncBy (option_map map_path_of file.entry) (O.state out.old) (O.state out.new)) }
{
    match file {
        None => Ok(()),
        Some(_kept) => out.sync(),
    }
}

// Replaces the map file, if there is one, by a map.
fn keep_map<'a, I: Images>(
    alloc: Global,
    images: &mut I,
    file: Option<MapPath<'_>>,
    map: &Map,
    no_scrape: bool,
) -> Result<(), PassFault<'a>>
    ensures ok { OnOk result (KeepsMap I.relations.replaces (option_map map_path_of file.entry) no_scrape map.now images.old images.new) }
    ensures err { IfErr result (LeavesMap I.relations.replaces (option_map map_path_of file.entry) no_scrape map.now images.old images.new) }
{
    match file {
        None => Ok(()),
        Some(kept) => {
            let text = print_map(alloc, kept.kind, map, kept.tail, no_scrape)?;
            Ok(images.replace(kept.path, text.as_slice())?)
        }
    }
}

/// The map after a turn, the sector before which the turn ended, how many sectors the pass skips after its next failed read, and the first
/// sector of the run that it would read backwards, 0 if there is none.
#[derive(Drop)]
struct TurnEnd {
    map: Map,
    at: u64,
    skip: u64,
    turned: u64,
}

// Reads the sectors of a turn until its time is up. If there is a map file, syncs the other device, and replaces the map file.
fn take_turn<'a, I: Images, D: BlockDev, O: SyncDev, L: Listing, P: Progress>(
    alloc: Global,
    images: &mut I,
    stack: &mut Stack<D>,
    d: DevId,
    out: &mut O,
    turn: NextTurn<'_>,
    listing: &mut L,
    progress: &mut P,
) -> Result<TurnEnd, PassFault<'a>>
    requires device { d.0 < length stack.old.config.devices }
    requires next { IsSpan (option_map map_path_of turn.file) turn.sectors turn.span.first turn.span (turn.span.first + turn.span.count) }
    requires until { IsTurnDeadline (option_map map_path_of turn.file) turn.span.first turn.deadline }
    requires all { turn.sectors ≡ size stack.old.config (mapped d.0) }
    requires map { length (marks turn.map.now) ≡ turn.sectors }
    requires wanted { marks turn.wanted.now ≡ asked_marks turn.phase turn.span turn.sectors turn.map.now }
    requires room { size stack.old.config (mapped d.0) ≤ (O.state out.old).size }
    requires allowed { IsTrue (O.state out.old).may_write }
    ensures ok { IfOk result (TakesTurn I.relations.replaces O.state L.told d.0 turn.entry images.old (parties stack.old out.old listing.old) images.new (parties stack.new out.new listing.new)) }
    ensures sectors { IfOk result (λ ended. length (marks ended.map) ≡ turn.entry.sectors) }
    ensures err { IfErr result (StopsTurn I.relations.replaces O.state L.told d.0 turn.entry images.old (parties stack.old out.old listing.old) images.new (parties stack.new out.new listing.new)) }
{
    let read = read_turn(alloc, stack, d, out, turn, listing, progress)?;
    sync_kept(turn.file, out)?;
    let first = turn.span.first;
    let at = (first + turn.span.count).min(sectors_of(&read.map));
    let count = at - first;
    let span = Span { first, count };
    let step = step_of(turn.phase);
    let forwards = stepped(alloc, turn.map, &read.map, span, turn.sectors, step)?;
    let map = stepped_backwards(alloc, forwards, read.way, turn.sectors, step)?;
    keep_map(alloc, images, turn.file, &map, turn.no_scrape)?;
    Ok(TurnEnd {
        map,
        at,
        skip: read.skip,
        turned: turned_by(read.way, at),
    })
}

/// Reads the sectors of a mapped device that have the status in a map that a pass reads, by this pass, and returns the new map. The readable
/// sectors are copied to the same offset of another device, which has room for all. A pass by single sectors reports of each turn the longest
/// runs of sectors that are lost by one fault. Without a map file one turn covers the device.
///
/// With a map file turns have at most 64 MiB, or about a 65,536th of a device above 4 TiB. A turn ends before a further piece once it has taken
/// 30 seconds, also while a run is read backwards: what was read of the run is then recovered, and the next turn goes on backwards. The next
/// turn of the first pass skips as many sectors after its first failed read as this one would. After each turn the other device is synced, and
/// the map file replaced by the map of what was read and lost so far. An interruption therefore loses at most one turn.
///
/// # Errors
///
/// - `NoMemory` if an allocation of at most 65,536 bytes was refused.
/// - `Output` if the other device failed.
/// - `Unwritten` if the map file can't be replaced.
///
/// After `NoMemory` and `Output` the map file is that of the completed turns.
pub fn read_in_turns<'a, I: Images, D: BlockDev, O: SyncDev, L: Listing, P: Progress>(
    alloc: Global,
    images: &mut I,
    stack: &mut Stack<D>,
    d: DevId,
    out: &mut O,
    kept: MapFile<'_>,
    listing: &mut L,
    progress: &mut P,
) -> Result<Map, PassFault<'a>>
    requires device { d.0 < length stack.old.config.devices }
    requires fits { length (marks kept.map) ≡ size stack.old.config (mapped d.0) }
    requires room { size stack.old.config (mapped d.0) ≤ (O.state out.old).size }
    requires allowed { IsTrue (O.state out.old).may_write }
    ensures ok { IfOk result (ReadsByFile I.relations.replaces O.state L.told d.0 kept.entry images.old (parties stack.old out.old listing.old) images.new (parties stack.new out.new listing.new)) }
    ensures goes_on { IfOk result (GoesOn O.state d.0 (parties stack.old out.old listing.old) (parties stack.new out.new listing.new)) }
    ensures err { IfErr result (StopsByFile I.relations.replaces O.state L.told d.0 kept.entry images.old (parties stack.old out.old listing.old) images.new (parties stack.new out.new listing.new)) }
{
    let sectors = stack.config().sectors(d);
    let MapFile {
        file,
        mut map,
        phase,
        no_scrape,
    } = kept;
    let mut skip = LEAST_SKIP.min(most_skipped(phase, sectors));
    let mut turned = 0;
    let mut at = 0;
    'turns: while at < sectors {
        let count = turn_len(file, sectors).min(sectors - at);
        let span = Span { first: at, count };
        let wanted = asked(alloc, phase, &map, span, sectors)?;
        if is_had(&wanted) {
            at += count;
        } else {
            let turn = NextTurn {
                phase,
                no_scrape,
                span,
                sectors,
                file,
                map: &map,
                wanted: &wanted,
                skip,
                turned,
                deadline: turn_deadline(file, at, progress),
            };
            let ended = take_turn(alloc, images, stack, d, out, turn, listing, progress)?;
            map = ended.map;
            at = ended.at;
            skip = ended.skip;
            turned = ended.turned;
        }
    }
    Ok(map)
}
