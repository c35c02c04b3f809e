//! The run of sectors of an unstriped line.
ghost use Rattle.std.specs.Prelude.{◌≡◌};
ghost use Rattle.dm_table.specs.Grammar.{IsUnstripedOfGrammar};
ghost use Rattle.stack_rules.specs.Rules.{IsLoaded};
ghost use Rattle.stack_lines.specs.Runs.{HasLineSectors, IsRunOfLine};

use crate::source::{Run, Source};
use dm_table::{Target, Unstriped};
use stack_config::{Config, DevId};

/// The sectors that lie in one chunk, from that one of the line on.
pub(crate) fn unstriped_run<'a>(
    config: &Config,
    d: DevId,
    line: u32,
    unstriped: &Unstriped,
    within: u64,
    count: u64,
) -> Run<'a>
    requires loaded { IsLoaded config.now }
    requires grammar { IsUnstripedOfGrammar unstriped.now }
    requires line { HasLineSectors config.now d.0 line (Target.Unstriped unstriped.now) within count }
    ensures { IsRunOfLine config.now (d.0, line) (Target.Unstriped unstriped.now) within count result }
{
    let chunk = u64::from(unstriped.chunk);
    let stripes = u64::from(unstriped.stripes);
    let stripe = u64::from(unstriped.stripe);
    let part = within % chunk;
    let count = count.min(chunk - part);
    let number = within / chunk * stripes + stripe;
    let first = unstriped.base.offset + number * chunk + part;
    let lower = config.lower(d, line, 0);
    Run {
        source: Source::Below { lower, first },
        count,
    }
}
