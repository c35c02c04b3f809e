//! The data block in which a sector lies.
ghost use Rattle.std.specs.Prelude.{◌≡◌, ◌<◌, ◌+◌, Some};
ghost use Rattle.stack_rules.specs.Names.{mapped, size};
ghost use Rattle.stack_rules.specs.Rules.{IsLoaded};
ghost use Rattle.stack_rules.specs.Trees.{block_sectors};
ghost use Rattle.stack_lines.specs.Sources.{SourceHolds};
ghost use Rattle.nbd_server.specs.DataBlocks.{part_block, sector_block, source_block, unit_block};

use stack_config::{Config, DevId, Lower};
use stack_lines::{CryptPart, Source, VerityPart, run_at};

/// A data block, by the `verity` line that it is of: the index of the line's mapped device, and that of the line in the device's
/// table. Blocks of a line count from 0.
#[derive(Clone, Copy, Debug, PartialEq, Eq)]
pub struct DataBlock {
    pub device: u32,
    pub line: u32,
    pub number: u64,
}

/// Returns the data block in which a sector of a leaf or a mapped device lies.
#[cycle(block)]
fn lower_block(config: &Config, lower: Lower, sector: u64) -> Option<DataBlock>
    requires loaded { IsLoaded config.now }
    requires inside { sector < size config.now lower }
    ensures { result ≡ sector_block config.now lower sector }
{
    match lower {
        Lower::Leaf(_) => None,
        Lower::Device(d) => device_block(config, d, sector),
    }
}

/// Returns the data block in which the first sector of a part of a `crypt` line lies.
#[cycle(block)]
fn unit_block(config: &Config, part: CryptPart<'_>) -> Option<DataBlock>
    requires loaded { IsLoaded config.now }
    requires inside { part.units.offset + part.first < size config.now part.lower }
    ensures { result ≡ unit_block config.now part.entry }
{
    lower_block(config, part.lower, part.units.offset + part.first)
}

/// Returns the data block in which the first sector of a part of a `verity` line lies.
fn verity_block(part: &VerityPart<'_>) -> Option<DataBlock>
    requires { 0 < block_sectors part.now.verity.now }
    ensures { result ≡ Some (part_block part.now) }
{
    Some(DataBlock {
        device: part.device.0,
        line: part.line,
        number: part.first / u64::from(part.verity.data_block / 512),
    })
}

/// Returns the data block in which the first sector of a run lies.
#[cycle(block)]
fn source_block(config: &Config, source: Source<'_>) -> Option<DataBlock>
    requires loaded { IsLoaded config.now }
    requires holds { SourceHolds config.now source 1 }
    ensures { result ≡ source_block config.now source.entry }
{
    match source {
        Source::Below { lower, first } => lower_block(config, lower, first),
        Source::Units(part) => unit_block(config, part),
        Source::UnitPart(part) => unit_block(config, part),
        Source::Zeros | Source::Fails => None,
        Source::Block(part) => verity_block(&part),
        Source::Blocks(part) => verity_block(&part),
    }
}

/// Returns the data block in which a sector of a mapped device lies.
#[cycle(block)]
fn device_block(config: &Config, d: DevId, sector: u64) -> Option<DataBlock>
    requires loaded { IsLoaded config.now }
    requires inside { sector < size config.now (mapped d.0) }
    ensures { result ≡ sector_block config.now (mapped d.0) sector }
{
    let run = run_at(config, d, sector, 1);
    source_block(config, run.source)
}

/// Returns the data block in which a sector of a mapped device lies: of the first `verity` line on its way down.
pub(crate) fn sector_block(config: &Config, d: DevId, sector: u64) -> Option<DataBlock>
    requires { sector < size config.now (mapped d.0) }
    ensures { result ≡ sector_block config.now (mapped d.0) sector }
{
    // What holds of every loaded configuration is learned from a call.
    let _loaded = config.count();
    device_block(config, d, sector)
}
