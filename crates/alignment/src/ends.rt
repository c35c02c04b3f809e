//! The last sectors of units and data blocks.
ghost use Rattle.std.specs.Prelude.{◌≡◌, ◌<◌, ◌+◌};
ghost use Rattle.stack_rules.specs.Names.{mapped, size};
ghost use Rattle.stack_rules.specs.Rules.{IsLoaded};
ghost use Rattle.stack_rules.specs.Trees.{block_sectors, line_data_sectors};
ghost use Rattle.stack_meaning.specs.Units.{size_sectors};
ghost use Rattle.stack_lines.specs.Sources.{IsVerityPart, SourceHolds};
ghost use Rattle.alignment.specs.Ends.{block_ends, ends_units, is_last, source_ends, unit_ends};

use stack_config::{Config, DevId, Lower};
use stack_lines::{CryptPart, Source, VerityPart, run_at};

/// Whether a sector is the last of as many that belong together, counted from the first sector of a line.
fn is_last(sectors: u64, sector: u64) -> bool
    requires { 0 < sectors }
    ensures { result ≡ is_last sectors sector }
{
    sector % sectors == sectors - 1
}

/// Whether the first sector of a part of a `crypt` line is the last one of its unit.
fn ends_unit(part: &CryptPart<'_>) -> bool
    ensures { result ≡ is_last (size_sectors part.now.units.size) part.now.first }
{
    is_last(u64::from(part.units.size.sectors()), part.first)
}

/// Whether the first sector of a part of a `verity` line is the last one of its data block.
fn ends_block(part: &VerityPart<'_>) -> bool
    requires { 0 < block_sectors part.now.verity.now }
    ensures { result ≡ is_last (block_sectors part.now.verity.now) part.now.first }
{
    is_last(u64::from(part.verity.data_block / 512), part.first)
}

/// Whether a sector of a leaf or a mapped device is the last one of each unit and data block in which it lies.
#[cycle(ends)]
fn lower_ends(config: &Config, lower: Lower, sector: u64) -> bool
    requires loaded { IsLoaded config.now }
    requires inside { sector < size config.now lower }
    ensures { result ≡ ends_units config.now lower sector }
{
    match lower {
        Lower::Leaf(_) => true,
        Lower::Device(d) => device_ends(config, d, sector),
    }
}

/// Whether the first sector of a part of a `crypt` line is the last one of each unit and data block in which it lies.
#[cycle(ends)]
fn unit_ends(config: &Config, part: CryptPart<'_>) -> bool
    requires loaded { IsLoaded config.now }
    requires inside { part.units.offset + part.first < size config.now part.lower }
    ensures { result ≡ unit_ends config.now part.entry }
{
    if !ends_unit(&part) {
        return false;
    }
    lower_ends(config, part.lower, part.units.offset + part.first)
}

/// Whether the first sector of a part of a `verity` line is the last one of each unit and data block in which it lies.
#[cycle(ends)]
fn block_ends(config: &Config, part: VerityPart<'_>) -> bool
    requires loaded { IsLoaded config.now }
    requires part { IsVerityPart config.now part }
    requires inside { part.first < line_data_sectors part.verity.now }
    ensures { result ≡ block_ends config.now part.entry }
{
    if !ends_block(&part) {
        return false;
    }
    lower_ends(config, part.data, part.first)
}

/// Whether the first sector of a run is the last one of each unit and data block in which it lies.
#[cycle(ends)]
fn source_ends(config: &Config, source: Source<'_>) -> bool
    requires loaded { IsLoaded config.now }
    requires holds { SourceHolds config.now source 1 }
    ensures { result ≡ source_ends config.now source.entry }
{
    match source {
        Source::Below { lower, first } => lower_ends(config, lower, first),
        Source::Units(part) => unit_ends(config, part),
        Source::UnitPart(part) => unit_ends(config, part),
        Source::Zeros | Source::Fails => true,
        Source::Block(part) => block_ends(config, part),
        Source::Blocks(part) => block_ends(config, part),
    }
}

/// Whether a sector of a mapped device is the last one of each unit and data block in which it lies.
#[cycle(ends)]
fn device_ends(config: &Config, d: DevId, sector: u64) -> bool
    requires loaded { IsLoaded config.now }
    requires inside { sector < size config.now (mapped d.0) }
    ensures { result ≡ ends_units config.now (mapped d.0) sector }
{
    let run = run_at(config, d, sector, 1);
    source_ends(config, run.source)
}

/// Whether a sector of a mapped device is the last one of each unit of a `crypt` line and each data block of a `verity` line
/// in which it lies, on its way down to the leaves.
pub fn ends_units(config: &Config, d: DevId, sector: u64) -> bool
    requires { sector < size config.now (mapped d.0) }
    ensures { result ≡ ends_units config.now (mapped d.0) sector }
{
    // What holds of every loaded configuration is learned from a call.
    let _loaded = config.count();
    device_ends(config, d, sector)
}
