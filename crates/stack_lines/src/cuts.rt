//! Whether a write may be split in two, which accesses no device.
ghost use Rattle.std.specs.Prelude.{◌≡◌, false, IsTrue};
ghost use Rattle.stack_rules.specs.Names.{mapped};
ghost use Rattle.stack_rules.specs.Rules.{IsLoaded};
ghost use Rattle.stack_lines.specs.declared.source.Source.TheVariants.{Below};
ghost use Rattle.stack_meaning.specs.Meaning.{said_at};
ghost use Rattle.stack_meaning.specs.Puts.{put_on};
ghost use Rattle.stack_lines.specs.Cuts.{AreSteps, PutsInSteps, AreInSteps};
ghost use Rattle.stack_lines.specs.Sources.{AreUnits, source_said};
ghost use Rattle.stack_lines.specs.Writing.{SomeEncrypt, source_put};

use crate::serve::run_at;
use crate::source::{CryptPart, Source};
use stack_config::{Config, DevId, Lower};

/// Steps of so many sectors, one after another. Of the first one, `skip` sectors lie before those of the request.
#[derive(Clone, Copy)]
pub struct Steps {
    pub size: u64,
    pub skip: u64,
}

/// Whether a put of whole units of a `crypt` line may be split at the end of each step.
fn units_cut(config: &Config, part: CryptPart<'_>, count: u64, steps: Steps) -> bool
    requires loaded { IsLoaded config.now }
    requires inside { AreUnits config.now part count }
    requires steps { AreSteps steps }
    ensures { IsTrue result → PutsInSteps (source_put config.now (Source.Units part.entry)) 0 count steps }
{
    let (_config, _count) = (config, count);
    let sectors = u64::from(part.units.size.sectors());
    if steps.size % sectors != 0 {
        return false;
    }
    steps.skip % sectors == 0
}

/// Returns whether a write of `count` sectors of a leaf or a mapped device, from sector `first` on, may be split after each
/// step. Returns `false` if that isn't known, and only if some of the sectors are encrypted.
#[cycle(cuts)]
pub fn lower_cuts(config: &Config, lower: Lower, first: u64, count: u64, steps: Steps) -> bool
    requires loaded { IsLoaded config.now }
    requires sectors { AreInSteps config.now (Below lower first) count steps }
    ensures puts { IsTrue result → PutsInSteps (put_on config.now lower) first count steps }
    ensures units { result ≡ false → SomeEncrypt (said_at config.now lower) first count }
{
    match lower {
        Lower::Leaf(_) => true,
        Lower::Device(d) => device_cuts(config, d, first, count, steps),
    }
}

/// Whether a put of the sectors of one run may be split at the end of each step.
#[cycle(cuts)]
fn run_cuts(config: &Config, source: Source<'_>, count: u64, steps: Steps) -> bool
    requires loaded { IsLoaded config.now }
    requires sectors { AreInSteps config.now source count steps }
    ensures puts { IsTrue result → PutsInSteps (source_put config.now source.entry) 0 count steps }
    ensures units { result ≡ false → SomeEncrypt (source_said config.now source.entry) 0 count }
{
    let left = steps.size - steps.skip;
    if count <= left {
        return true;
    }
    match source {
        Source::Below { lower, first } => lower_cuts(config, lower, first, count, steps),
        Source::Units(part) => units_cut(config, part, count, steps),
        Source::UnitPart(_) => false,
        Source::Zeros | Source::Fails => true,
        Source::Block(_) => false,
        Source::Blocks(_) => false,
    }
}

/// Whether a put of the sectors of a mapped device may be split at the end of each step.
#[cycle(cuts)]
fn device_cuts(config: &Config, d: DevId, first: u64, count: u64, steps: Steps) -> bool
    requires loaded { IsLoaded config.now }
    requires sectors { AreInSteps config.now (Below (mapped d.0) first) count steps }
    ensures puts { IsTrue result → PutsInSteps (put_on config.now (mapped d.0)) first count steps }
    ensures units { result ≡ false → SomeEncrypt (said_at config.now (mapped d.0)) first count }
{
    let mut at = 0;
    while at < count {
        let run = run_at(config, d, first + at, count - at);
        let skip = (steps.skip + at) % steps.size;
        let rest = Steps {
            size: steps.size,
            skip,
        };
        if !run_cuts(config, run.source, run.count, rest) {
            return false;
        }
        at += run.count;
    }
    true
}
