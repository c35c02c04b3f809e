//! Whether a write of sectors encrypts some of them, which accesses no device.
ghost use Rattle.std.specs.Prelude.{◌↔◌, ◌<◌, ◌≤◌, ◌+◌, IsTrue};
ghost use Rattle.stack_rules.specs.Names.{mapped, size};
ghost use Rattle.stack_rules.specs.Rules.{IsLoaded};
ghost use Rattle.stack_meaning.specs.Meaning.{said_at};
ghost use Rattle.stack_lines.specs.Sources.{SourceHolds, source_said};
ghost use Rattle.stack_lines.specs.Writing.{SomeEncrypt};

use crate::serve::run_at;
use crate::source::Source;
use stack_config::{Config, DevId, Lower};

/// Whether a write of some sectors of a leaf or a mapped device encrypts one of them.
#[cycle(encrypts)]
fn lower_encrypts(config: &Config, lower: Lower, first: u64, count: u64) -> bool
    requires loaded { IsLoaded config.now }
    requires inside { first + count ≤ size config.now lower }
    ensures { IsTrue result ↔ SomeEncrypt (said_at config.now lower) first count }
{
    match lower {
        Lower::Leaf(_) => false,
        Lower::Device(d) => device_encrypts(config, d, first, count),
    }
}

/// Whether a write of a run encrypts one of its sectors.
#[cycle(encrypts)]
fn run_encrypts(config: &Config, source: Source<'_>, count: u64) -> bool
    requires loaded { IsLoaded config.now }
    requires some { 0 < count }
    requires inside { SourceHolds config.now source count }
    ensures { IsTrue result ↔ SomeEncrypt (source_said config.now source.entry) 0 count }
{
    match source {
        Source::Below { lower, first } => lower_encrypts(config, lower, first, count),
        Source::Units(_) => true,
        Source::UnitPart(_) => true,
        Source::Zeros | Source::Fails => false,
        Source::Block(_) => false,
        Source::Blocks(_) => false,
    }
}

/// Returns whether a write of `count` sectors of a mapped device, from sector `first` on, encrypts some of them.
#[cycle(encrypts)]
pub fn device_encrypts(config: &Config, d: DevId, first: u64, count: u64) -> bool
    requires loaded { IsLoaded config.now }
    requires inside { first + count ≤ size config.now (mapped d.0) }
    ensures { IsTrue result ↔ SomeEncrypt (said_at config.now (mapped d.0)) first count }
{
    let mut at = 0;
    while at < count {
        let run = run_at(config, d, first + at, count - at);
        if run_encrypts(config, run.source, run.count) {
            return true;
        }
        at += run.count;
    }
    false
}
