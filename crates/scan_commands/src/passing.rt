//! The passes over a mapped device, with or without a map file.
ghost use Rattle.std.specs.Prelude.{◌≡◌, length, IfOk, IfErr};
ghost use Rattle.rescue_map.specs.Maps.{marks};
ghost use Rattle.stack_rules.specs.Names.{mapped, size};
ghost use Rattle.scan_commands.specs.Passes.{CanPass, EndsLargeMapBy, EndsLastBy, LeavesPassing, PassesBy, ReadsLargeMapBy, ReportsLastBy, StopsBy};
ghost use Rattle.scan_commands.specs.PassesInTurns.{counts_of};

use crate::map_file::{MapFile, MapPath, begin_map, with_tail};
use crate::phase::{Phase, phase_after};
use crate::rescue_fault::PassFault;
use crate::retries::retry_in_turns;
use crate::trimming::{TrimmedMap, trim_in_turns};
use crate::turns::read_in_turns;
use block_device::{BlockDev, SyncDev};
use device_adapters::Progress;
use image_files::Images;
use rescue_map::{Map, ParsedMap, Totals, totals_of};
use stack_config::DevId;
use stack_engine::Stack;
use stack_recovery::{Counts, KeptRuns, Listing, LostRun, NoListing, tell_among_bad};
use std::alloc::Global;

/// A mapped device of a stack, the device that its readable sectors are copied to, how many times lost sectors are read again, and
/// whether a failed piece isn't searched sector by sector after its first lost sector.
#[derive(Drop)]
pub struct Passing<D: BlockDev, O> {
    pub stack: Stack<D>,
    pub device: DevId,
    pub out: O,
    pub retries: u64,
    pub no_scrape: bool,
}

/// Reads each sector of a mapped device, copies the readable sectors to the same offset of another device, and reports the
/// longest runs of sectors that aren't recovered by one fault.
///
/// Each pass reads the sectors of one status of a map: those in large pieces what is untried, the one that trims what is untrimmed, the one
/// that scrapes, if any, what is unscraped, and those that read lost sectors again what is bad. The first pass skips ahead after failed
/// reads, and the second one reads what the first one left. Runs are reported after the last pass, also of sectors that no pass read, by the
/// fault of binding 0.
///
/// With a map file each pass goes in turns; after each turn the other device is synced and the map file replaced. Without a map file the map
/// is kept in memory, the opener isn't called, and nothing is synced.
///
/// # Errors
///
/// - `NoMemory` if an allocation was refused.
/// - `Output` if the other device failed.
/// - With a map file also `Unread`, `TooLong` or `NoMap` if the file holds no usable map, and `Unwritten` if it can't be
///   replaced.
pub fn run_pass<'a, I: Images, D: BlockDev, O: SyncDev, L: Listing, P: Progress>(
    alloc: Global,
    images: &mut I,
    passing: &mut Passing<D, O>,
    file: Option<MapPath<'a>>,
    listing: &mut L,
    progress: &mut P,
) -> Result<Counts, PassFault<'a>>
    requires { CanPass O.state passing.old }
    ensures ok { IfOk result (PassesBy I.relations I.Dev.state O.state L.told images.old images.new passing.old passing.new listing.old listing.new file.entry) }
    ensures err { IfErr result (StopsBy I.relations I.Dev.state O.state L.told images.old images.new passing.old passing.new listing.old listing.new file.entry) }
{
    let _most = passing.out.sectors(); // the bound on a device's sectors
    let device = passing.device;
    let no_scrape = passing.no_scrape;
    let sectors = passing.stack.config().sectors(device);
    let ParsedMap { map, tail } = begin_map(alloc, images, file, sectors)?;
    let file = with_tail(file, tail);
    let swept = read_large_in_turns(alloc, images, passing, file, map, progress)?;
    let trimmed = trim_in_turns(alloc, images, passing, file, swept, progress)?;
    let TrimmedMap { map, known } = trimmed;
    let left = retry_in_turns(alloc, images, passing, file, map, progress)?;
    let phase = phase_after(no_scrape, left.passes);
    let last = MapFile {
        file,
        map: left.map,
        phase,
        no_scrape,
    };
    let known = known.runs.as_slice();
    report_last(alloc, images, passing, last, known, listing, progress)
}

// Runs the two passes in large pieces, and returns their map.
fn read_large_in_turns<'a, I: Images, D: BlockDev, O: SyncDev, P: Progress>(
    alloc: Global,
    images: &mut I,
    passing: &mut Passing<D, O>,
    file: Option<MapPath<'_>>,
    map: Map,
    progress: &mut P,
) -> Result<Map, PassFault<'a>>
    requires can { CanPass O.state passing.old }
    requires fits { length (marks map) ≡ size passing.old.stack.config (mapped passing.old.device.0) }
    ensures ok { IfOk result (ReadsLargeMapBy I.relations.replaces O.state file.entry map images.old images.new passing.old passing.new) }
    ensures left { IfOk result (LeavesPassing O.state passing.old passing.new) }
    ensures err { IfErr result (EndsLargeMapBy I.relations.replaces O.state file.entry map images.old images.new passing.old passing.new) }
{
    let device = passing.device;
    let no_scrape = passing.no_scrape;
    let first = MapFile {
        file,
        map,
        phase: Phase::Skim,
        no_scrape,
    };
    let none = &mut NoListing;
    let stack = &mut passing.stack;
    let out = &mut passing.out;
    let skimmed = read_in_turns(alloc, images, stack, device, out, first, none, progress)?;
    let second = MapFile {
        file,
        map: skimmed,
        phase: Phase::Sweep,
        no_scrape,
    };
    let none = &mut NoListing;
    let stack = &mut passing.stack;
    let out = &mut passing.out;
    let swept = read_in_turns(alloc, images, stack, device, out, second, none, progress)?;
    Ok(swept)
}

// Runs the last pass, and reports its lost runs with the bad sectors that it left, of which these runs are known.
fn report_last<'a, I: Images, D: BlockDev, O: SyncDev, L: Listing, P: Progress>(
    alloc: Global,
    images: &mut I,
    passing: &mut Passing<D, O>,
    last: MapFile<'_>,
    known: &[LostRun],
    listing: &mut L,
    progress: &mut P,
) -> Result<Counts, PassFault<'a>>
    requires can { CanPass O.state passing.old }
    requires fits { length (marks last.map) ≡ size passing.old.stack.config (mapped passing.old.device.0) }
    ensures ok { IfOk result (ReportsLastBy I.relations.replaces O.state L.told last.entry known.now images.old images.new passing.old passing.new listing.old listing.new) }
    ensures err { IfErr result (EndsLastBy I.relations.replaces O.state L.told last.entry images.old images.new passing.old passing.new listing.old listing.new) }
{
    let device = passing.device;
    let mut kept = KeptRuns::new(alloc);
    let made = read_in_turns(
        alloc,
        images,
        &mut passing.stack,
        device,
        &mut passing.out,
        last,
        &mut kept,
        progress,
    )?;
    if kept.refused.is_some() {
        return Err(PassFault::NoMemory);
    }
    tell_among_bad(listing, &made, known, kept.runs.as_slice());
    Ok(counts_of(totals_of(&made)))
}

// The counts of a map.
fn counts_of(totals: Totals) -> Counts
    ensures { result ≡ counts_of totals }
{
    Counts {
        read: totals.had,
        lost: totals.bad,
        untried: totals.left,
    }
}
