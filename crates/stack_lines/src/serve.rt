//! The run of sectors at a place of a device.
ghost use Rattle.std.specs.Prelude.{◌≡◌, ◌<◌, ◌≤◌, ◌+◌, ◌%◌};
ghost use Rattle.dm_table.specs.Grammar.{IsStripedOfGrammar, IsTargetOfGrammar, IsVerityOfGrammar};
ghost use Rattle.stack_rules.specs.Names.{mapped, size};
ghost use Rattle.stack_rules.specs.Rules.{IsLoaded};
ghost use Rattle.stack_rules.specs.Trees.{block_sectors};
ghost use Rattle.stack_lines.specs.Sources.{ComeFrom, HasTarget, HasVerity, IsPlacedAt, IsVerityPart, parity_lower};
ghost use Rattle.stack_lines.specs.Runs.{HasLineSectors, IsRunOfLine, IsRunAt};

use crate::source::{CryptPart, Run, Source, VerityPart};
use crate::unstriped::unstriped_run;
use dm_table::{Base, Crypt, Line, Target, Verity};
use stack_config::{Config, DevId, Lower};
use stack_meaning::CryptUnits;

fn linear_run<'a>(
    config: &Config,
    d: DevId,
    line: u32,
    base: &Base,
    within: u64,
    count: u64,
) -> Run<'a>
    requires loaded { IsLoaded config.now }
    requires line { HasTarget config.now d.0 line (Target.Linear base.now) (within + count) }
    ensures come { ComeFrom config.now (d.0, line) (Target.Linear base.now) within count result.source }
    ensures count { result.count ≡ count }
{
    let lower = config.lower(d, line, 0);
    let first = base.offset + within;
    Run {
        source: Source::Below { lower, first },
        count,
    }
}

/// Whole units, or sectors of one unit.
fn crypt_run<'a>(
    config: &'a Config,
    d: DevId,
    line: u32,
    crypt: &Crypt,
    within: u64,
    count: u64,
) -> Run<'a>
    requires loaded { IsLoaded config.now }
    requires line { HasLineSectors config.now d.0 line (Target.Crypt crypt.now) within count }
    ensures { IsRunOfLine config.now (d.0, line) (Target.Crypt crypt.now) within count result }
{
    let units = CryptUnits::of(crypt);
    let part = CryptPart {
        units,
        key: config.key(d, line),
        lower: config.lower(d, line, 0),
        first: within,
    };
    let sectors = u64::from(units.size.sectors());
    if within % sectors != 0 {
        return Run {
            source: Source::UnitPart(part),
            count: count.min(sectors - within % sectors),
        };
    }
    if count < sectors {
        return Run {
            source: Source::UnitPart(part),
            count,
        };
    }
    Run {
        source: Source::Units(part),
        count: count - count % sectors,
    }
}

/// The sectors that lie in one chunk, from that one of the line on.
fn striped_run<'a>(
    config: &Config,
    at: (DevId, u32),
    chunk: u64,
    bases: &[Base],
    within: u64,
    count: u64,
) -> Run<'a>
    requires loaded { IsLoaded config.now }
    requires grammar { IsStripedOfGrammar chunk bases.now }
    requires line { HasLineSectors config.now at.0.0 at.1 (Target.Striped chunk bases.now) within count }
    ensures { IsRunOfLine config.now (at.0.0, at.1) (Target.Striped chunk bases.now) within count result }
{
    let number = within / chunk;
    let part = within % chunk;
    let stripes = bases.len() as u64;
    let stripe = number % stripes;
    let base = &bases[stripe as usize];
    let count = count.min(chunk - part);
    let first = base.offset + number / stripes * chunk + part;
    let lower = config.lower(at.0, at.1, stripe as u32);
    Run {
        source: Source::Below { lower, first },
        count,
    }
}

/// The whole data blocks from that sector on.
fn blocks_run<'a>(config: &Config, at: (DevId, u32), part: VerityPart<'a>, count: u64) -> Run<'a>
    requires loaded { IsLoaded config.now }
    requires line { HasTarget config.now at.0.0 at.1 (Target.Verity part.verity.now) (part.first + count) }
    requires part { IsVerityPart config.now part }
    requires place { IsPlacedAt at.0.0 at.1 part }
    requires some { 0 < block_sectors part.verity.now }
    requires aligned { part.first % block_sectors part.verity.now ≡ 0 }
    requires enough { block_sectors part.verity.now ≤ count }
    ensures { IsRunOfLine config.now (at.0.0, at.1) (Target.Verity part.entry.verity.now) part.entry.first count result }
{
    let (_config, _at) = (config, at);
    let sectors = u64::from(part.verity.data_block / 512);
    let count = count - count % sectors;
    Run {
        source: Source::Blocks(part),
        count,
    }
}

/// The sectors that lie in one data block.
fn block_run<'a>(config: &Config, at: (DevId, u32), part: VerityPart<'a>, count: u64) -> Run<'a>
    requires loaded { IsLoaded config.now }
    requires grammar { IsVerityOfGrammar part.verity.now }
    requires line { HasLineSectors config.now at.0.0 at.1 (Target.Verity part.verity.now) part.first count }
    requires part { IsVerityPart config.now part }
    requires place { IsPlacedAt at.0.0 at.1 part }
    ensures { IsRunOfLine config.now (at.0.0, at.1) (Target.Verity part.entry.verity.now) part.entry.first count result }
{
    let (_config, _at) = (config, at);
    let few = part.verity.data_block / 512;
    let sectors = u64::from(few);
    let count = count.min(sectors - part.first % sectors);
    Run {
        source: Source::Block(part),
        count,
    }
}

/// The device of the parity of a line, if it has parity.
fn parity_of(config: &Config, d: DevId, line: u32, verity: &Verity) -> Option<Lower>
    requires loaded { IsLoaded config.now }
    requires line { HasVerity config.now d.0 line verity.now }
    ensures { result ≡ parity_lower config.now verity.now }
{
    match verity.parity {
        Some(_) => Some(config.lower(d, line, 2)),
        None => None,
    }
}

/// Whole data blocks, or sectors of one block.
fn verity_run<'a>(
    config: &Config,
    d: DevId,
    line: u32,
    verity: &'a Verity,
    within: u64,
    count: u64,
) -> Run<'a>
    requires loaded { IsLoaded config.now }
    requires grammar { IsVerityOfGrammar verity.now }
    requires line { HasLineSectors config.now d.0 line (Target.Verity verity.now) within count }
    ensures { IsRunOfLine config.now (d.0, line) (Target.Verity verity.now) within count result }
{
    let part = VerityPart {
        device: d,
        line,
        verity,
        data: config.lower(d, line, 0),
        hash: config.lower(d, line, 1),
        parity: parity_of(config, d, line, verity),
        first: within,
    };
    let sectors = u64::from(verity.data_block / 512);
    if within % sectors != 0 {
        return block_run(config, (d, line), part, count);
    }
    if count < sectors {
        return block_run(config, (d, line), part, count);
    }
    blocks_run(config, (d, line), part, count)
}

/// The longest run of so many sectors of a line at most.
fn line_run<'a>(
    config: &'a Config,
    d: DevId,
    number: u32,
    line: &'a Line,
    within: u64,
    count: u64,
) -> Run<'a>
    requires loaded { IsLoaded config.now }
    requires grammar { IsTargetOfGrammar line.now.target }
    requires line { HasLineSectors config.now d.0 number line.now.target within count }
    ensures { IsRunOfLine config.now (d.0, number) line.now.target within count result }
{
    match &line.target {
        Target::Linear(base) => linear_run(config, d, number, base, within, count),
        Target::Striped { chunk, bases } => {
            let at = (d, number);
            striped_run(config, at, *chunk, bases.as_slice(), within, count)
        }
        Target::Zero => Run {
            source: Source::Zeros,
            count,
        },
        Target::Crypt(crypt) => crypt_run(config, d, number, crypt, within, count),
        Target::Error => Run {
            source: Source::Fails,
            count,
        },
        Target::Verity(verity) => verity_run(config, d, number, verity, within, count),
        Target::Unstriped(line) => unstriped_run(config, d, number, line, within, count),
    }
}

/// Returns the longest run from `sector` of a device on, of at most `most` sectors: sectors of one line with one source.
pub fn run_at(config: &Config, d: DevId, sector: u64, most: u64) -> Run<'_>
    requires loaded { IsLoaded config.now }
    requires some { 0 < most }
    requires inside { sector + most ≤ size config.now (mapped d.0) }
    ensures { IsRunAt config.now d.0 sector most result }
{
    let place = config.line_at(d, sector);
    let number = place.0;
    let lines = config.table(d).lines();
    let line = &lines[number as usize];
    let within = sector - line.start;
    let count = most.min(place.1);
    line_run(config, d, number, line, within, count)
}
