//! The pass that reads failed pieces from both edges.
ghost use Rattle.std.specs.Prelude.{◌≡◌, length, IfErr, IfOk};
ghost use Rattle.rescue_map.specs.Maps.{marks};
ghost use Rattle.stack_rules.specs.Names.{mapped, size};
ghost use Rattle.scan_commands.specs.Passes.{CanPass, EndsTrimsBy, LeavesPassing, TrimsMapBy};

use crate::map_file::{MapFile, MapPath};
use crate::passing::Passing;
use crate::phase::Phase;
use crate::rescue_fault::PassFault;
use crate::turns::read_in_turns;
use block_device::{BlockDev, SyncDev};
use device_adapters::Progress;
use image_files::Images;
use rescue_map::Map;
use stack_recovery::KeptRuns;
use std::alloc::Global;

/// A map, and the lost runs that a pass found which made it.
#[derive(Drop)]
pub(crate) struct TrimmedMap {
    pub(crate) map: Map,
    pub(crate) known: KeptRuns,
}

/// Reads the untrimmed sectors of a map: each longest run of them up to its first lost sector, and backwards up to its last one. So good
/// sectors beside bad ones are read before the others are read one by one.
///
/// # Errors
///
/// Those of `read_in_turns`.
pub(crate) fn trim_in_turns<'a, I: Images, D: BlockDev, O: SyncDev, P: Progress>(
    alloc: Global,
    images: &mut I,
    passing: &mut Passing<D, O>,
    file: Option<MapPath<'_>>,
    map: Map,
    progress: &mut P,
) -> Result<TrimmedMap, PassFault<'a>>
    requires can { CanPass O.state passing.old }
    requires fits { length (marks map) ≡ size passing.old.stack.config (mapped passing.old.device.0) }
    ensures ok { IfOk result (TrimsMapBy I.relations.replaces O.state file.entry map images.old images.new passing.old passing.new) }
    ensures left { IfOk result (λ trimmed. LeavesPassing O.state passing.old passing.new trimmed.map) }
    ensures err { IfErr result (EndsTrimsBy I.relations.replaces O.state file.entry map images.old images.new passing.old passing.new) }
{
    let device = passing.device;
    let mut known = KeptRuns::new(alloc);
    let trims = MapFile {
        file,
        map,
        phase: Phase::Trim,
        no_scrape: passing.no_scrape,
    };
    let stack = &mut passing.stack;
    let out = &mut passing.out;
    let made = read_in_turns(
        alloc, images, stack, device, out, trims, &mut known, progress,
    )?;
    if known.refused.is_some() {
        return Err(PassFault::NoMemory);
    }
    Ok(TrimmedMap { map: made, known })
}
