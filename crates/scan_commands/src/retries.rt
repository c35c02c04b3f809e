//! The passes by single sectors that report nothing.
ghost use Rattle.std.specs.Prelude.{◌≡◌, ◌≤◌, ◌<◌, length, IfErr, IfOk};
ghost use Rattle.rescue_map.specs.Maps.{marks};
ghost use Rattle.stack_rules.specs.Names.{mapped, size};
ghost use Rattle.scan_commands.specs.Passes.{CanPass, EndsRetriesBy, LeavesPassing, RetriesMapBy};

use crate::map_file::{MapFile, MapPath};
use crate::passing::Passing;
use crate::phase::phase_after;
use crate::rescue_fault::PassFault;
use crate::turns::read_in_turns;
use block_device::{BlockDev, SyncDev};
use device_adapters::Progress;
use image_files::Images;
use rescue_map::{Map, is_had};
use stack_recovery::NoListing;
use std::alloc::Global;

/// A map, and how many passes after the first one made it.
#[derive(Drop)]
pub(crate) struct TriedMap {
    pub(crate) map: Map,
    pub(crate) passes: u64,
}

/// Reads the unscraped sectors of a map, if any, and then the bad ones, in as many passes as lost sectors are read again, or until none
/// is left, and returns the new map. Each pass goes in turns, and reports nothing; the pass that reports lost sectors comes
/// after these.
///
/// # Errors
///
/// Those of `read_in_turns`.
pub(crate) fn retry_in_turns<'a, I: Images, D: BlockDev, O: SyncDev, P: Progress>(
    alloc: Global,
    images: &mut I,
    passing: &mut Passing<D, O>,
    file: Option<MapPath<'_>>,
    map: Map,
    progress: &mut P,
) -> Result<TriedMap, PassFault<'a>>
    requires can { CanPass O.state passing.old }
    requires fits { length (marks map) ≡ size passing.old.stack.config (mapped passing.old.device.0) }
    ensures ok { IfOk result (RetriesMapBy I.relations.replaces O.state file.entry map images.old images.new passing.old passing.new) }
    ensures left { IfOk result (λ tried. LeavesPassing O.state passing.old passing.new tried.map) }
    ensures err { IfErr result (EndsRetriesBy I.relations.replaces O.state file.entry map images.old images.new passing.old passing.new) }
{
    let device = passing.device;
    let retries = passing.retries;
    let no_scrape = passing.no_scrape;
    let mut left = map;
    let mut passes = 0;
    'passes: while passes < retries && !is_had(&left) {
        let phase = phase_after(no_scrape, passes);
        let next = MapFile {
            file,
            map: left,
            phase,
            no_scrape,
        };
        let read = read_in_turns(
            alloc,
            images,
            &mut passing.stack,
            device,
            &mut passing.out,
            next,
            &mut NoListing,
            progress,
        )?;
        left = read;
        passes += 1;
    }
    Ok(TriedMap { map: left, passes })
}
