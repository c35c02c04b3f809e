//! The run of sectors that is read at a place of a device.
ghost use Rattle.std.specs.Prelude.{◌≡◌, ◌<◌, ◌≤◌, ◌+◌, IsTrue, length};
ghost use Rattle.stack_rules.specs.Names.{mapped, size};
ghost use Rattle.stack_rules.specs.Rules.{IsLoaded};
ghost use Rattle.stack_lines.specs.AtOnce.{AreBefore, CanGo, GoAtOnce};
ghost use Rattle.stack_lines.specs.Runs.{IsRunAt};
ghost use Rattle.stack_lines.specs.Sources.{AreWholeBlocks};
ghost use Rattle.stack_lines.specs.Standing.{AreLeafSets};

use crate::cache::Cache;
use crate::serve::run_at;
use crate::source::{Run, Source, VerityPart};
use stack_config::{Config, DevId};
use stack_meaning::Found;

/// The most sectors of data blocks that are read at once.
const MOST: u64 = 2048;

/// Whether each chain of a line is that of a block before that one.
fn are_before(found: &[Found], device: u32, line: u32, index: u64) -> bool
    ensures { IsTrue result → AreBefore device line index found.now }
{
    for one in found {
        let chain = &one.chain;
        if one.device == device && one.line == line && chain.index >= index {
            return false;
        }
    }
    true
}

/// Whether whole data blocks can be read at once.
fn go_at_once(
    config: &Config,
    cache: &Cache,
    part: &VerityPart<'_>,
    count: u64,
    found: &[Found],
) -> bool
    requires loaded { IsLoaded config.now }
    requires blocks { AreWholeBlocks config.now part.now count }
    ensures { AreLeafSets config.now cache.now.beneath → IsTrue result → GoAtOnce config.now part.now count found.now }
{
    let _config = config;
    if count > MOST {
        return false;
    }
    let sectors = u64::from(part.verity.data_block / 512);
    // One block alone is restored by parity even if a device can't read it.
    if count <= sectors {
        return false;
    }
    if !are_before(found, part.device.0, part.line, part.first / sectors) {
        return false;
    }
    cache.is_clear(part.data)
}

/// Returns the run to read from `sector` of a device on, of at most `most` sectors, after the chains in `found` were found: the
/// longest run, or only its first data block if its data blocks can't be read at once.
pub fn run_to_read<'a>(
    config: &'a Config,
    cache: &Cache,
    d: DevId,
    sector: u64,
    most: u64,
    found: &[Found],
) -> Run<'a>
    requires loaded { IsLoaded config.now }
    requires some { 0 < most }
    requires inside { sector + most ≤ size config.now (mapped d.0) }
    ensures run { IsRunAt config.now d.0 sector most result }
    ensures can_go { AreLeafSets config.now cache.now.beneath → CanGo config.now result.source result.count found.now }
{
    let run = run_at(config, d, sector, most);
    let count = run.count;
    match run.source {
        Source::Blocks(part) => {
            if go_at_once(config, cache, &part, count, found) {
                Run {
                    source: Source::Blocks(part),
                    count,
                }
            } else {
                Run {
                    count: u64::from(part.verity.data_block / 512),
                    source: Source::Block(part),
                }
            }
        }
        Source::Below { .. } => run,
        Source::Units(_) => run,
        Source::UnitPart(_) => run,
        Source::Zeros => run,
        Source::Fails => run,
        Source::Block(_) => run,
    }
}
