//! Extents of sectors by what the lines say of them before anything is read.
ghost use Rattle.std.specs.Prelude.{◌≡◌, ◌<◌, ◌≤◌, ◌+◌};
ghost use Rattle.stack_rules.specs.Names.{mapped, size};
ghost use Rattle.stack_rules.specs.Rules.{IsLoaded};
ghost use Rattle.stack_meaning.specs.Meaning.{said_at};
ghost use Rattle.stack_lines.specs.Sources.{SourceHolds, source_said};
ghost use Rattle.stack_lines.specs.declared.source.Source.TheVariants.{Block};
ghost use Rattle.nbd_server.specs.Extents.{HasKind, IsToldExtent, IsWholeExtent, SourceHas, is_same_kind};

use stack_config::{Config, DevId, Lower};
use stack_lines::{Source, VerityPart, run_at};

/// The most runs that are joined to the extents of one reply.
pub(crate) const MOST_RUNS: u32 = 65536;

/// What is known of sectors before they are read.
#[derive(Clone, Copy, Debug, PartialEq, Eq)]
pub enum ExtentKind {
    /// The lines make them zeros.
    Zeros,
    /// They are on `verity` lines that ignore blocks of zeros. A read of such a block reports zeros, and reads the data device
    /// for the other blocks only.
    IgnoresZeros,
    /// Nothing.
    Unknown,
}

/// A number of sectors that are all of one kind.
#[derive(Clone, Copy, Debug, PartialEq, Eq)]
pub struct Extent {
    pub count: u64,
    pub kind: ExtentKind,
}

/// Whether the two kinds are equal.
pub(crate) fn is_same_kind(a: ExtentKind, b: ExtentKind) -> bool
    ensures { result ≡ is_same_kind a b }
{
    match (a, b) {
        (ExtentKind::Zeros, ExtentKind::Zeros)
        | (ExtentKind::IgnoresZeros, ExtentKind::IgnoresZeros)
        | (ExtentKind::Unknown, ExtentKind::Unknown) => true,
        _ => false,
    }
}

/// Returns the extent of at most `most` sectors of a `verity` line.
fn verity_extent(config: &Config, part: VerityPart<'_>, most: u64) -> Extent
    requires { 0 < most }
    ensures { IsToldExtent (source_said config.now (Block part.entry)) (SourceHas config.now (Block part.entry)) 0 most result }
{
    let _config = config;
    if part.verity.ignore_zero_blocks {
        return Extent {
            count: most,
            kind: ExtentKind::IgnoresZeros,
        };
    }
    Extent {
        count: most,
        kind: ExtentKind::Unknown,
    }
}

/// Returns the extent of at most `most` sectors of a source, from its first sector on.
#[cycle(extent)]
fn source_extent(config: &Config, source: Source<'_>, most: u64) -> Extent
    requires loaded { IsLoaded config.now }
    requires some { 0 < most }
    requires inside { SourceHolds config.now source most }
    ensures { IsToldExtent (source_said config.now source.entry) (SourceHas config.now source.entry) 0 most result }
{
    match source {
        Source::Zeros => Extent {
            count: most,
            kind: ExtentKind::Zeros,
        },
        Source::Below { lower, first } => lower_extent(config, lower, first, most),
        Source::Block(part) => verity_extent(config, part, most),
        Source::Blocks(part) => verity_extent(config, part, most),
        _ => Extent {
            count: most,
            kind: ExtentKind::Unknown,
        },
    }
}

/// Returns the extent of at most `most` sectors of a backing device or a mapped device, from sector `first` on.
#[cycle(extent)]
fn lower_extent(config: &Config, lower: Lower, first: u64, most: u64) -> Extent
    requires loaded { IsLoaded config.now }
    requires some { 0 < most }
    requires inside { first + most ≤ size config.now lower }
    ensures { IsToldExtent (said_at config.now lower) (HasKind config.now lower) first most result }
{
    match lower {
        Lower::Leaf(_) => Extent {
            count: most,
            kind: ExtentKind::Unknown,
        },
        Lower::Device(d) => device_extent(config, d, first, most),
    }
}

/// Returns the extent of at most `most` sectors of a mapped device, from sector `first` on.
#[cycle(extent)]
fn device_extent(config: &Config, d: DevId, first: u64, most: u64) -> Extent
    requires loaded { IsLoaded config.now }
    requires some { 0 < most }
    requires inside { first + most ≤ size config.now (mapped d.0) }
    ensures { IsToldExtent (said_at config.now (mapped d.0)) (HasKind config.now (mapped d.0)) first most result }
{
    let run = run_at(config, d, first, most);
    source_extent(config, run.source, run.count)
}

/// Returns an extent of at most `most` sectors of a mapped device, from sector `first` on, and how many more runs may be joined.
/// It joins up to `runs` runs and may therefore end before the kind changes.
pub fn extent_at(config: &Config, d: DevId, first: u64, most: u64, runs: u32) -> (Extent, u32)
    requires loaded { IsLoaded config.now }
    requires some { (0 < most) × (0 < runs) }
    requires inside { first + most ≤ size config.now (mapped d.0) }
    ensures { IsWholeExtent (said_at config.now (mapped d.0)) (HasKind config.now (mapped d.0)) first most runs result.0 result.1 }
{
    let mut extent = device_extent(config, d, first, most);
    for run in 1..runs {
        if extent.count == most {
            return (extent, runs - run);
        }
        let at = first + extent.count;
        let next = device_extent(config, d, at, most - extent.count);
        if !is_same_kind(next.kind, extent.kind) {
            return (extent, runs - run);
        }
        extent.count += next.count;
    }
    (extent, 0)
}
