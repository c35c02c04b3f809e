//! How many sectors the next piece of a transfer has.
ghost use Rattle.std.specs.Prelude.{◌+◌, ◌<◌, ◌≤◌};
ghost use Rattle.stack_rules.specs.Names.{mapped, size};
ghost use Rattle.alignment.specs.Lengths.{IsAlignedLen};

use crate::ends::ends_units;
use stack_config::{Config, DevId};

/// How many sectors the next piece of a transfer has, of which `rest` sectors of a mapped device are left from `first` on. It
/// has all of them, unless they are more than `most`. Otherwise it ends with the last of `most` sectors that ends each unit
/// and data block in which it lies, or has `most` sectors if none does.
pub fn aligned_len(config: &Config, d: DevId, first: u64, rest: u64, most: u64) -> u64
    requires left { 0 < rest }
    requires some { 0 < most }
    requires inside { first + rest ≤ size config.now (mapped d.0) }
    ensures { IsAlignedLen config.now d.0 first rest most result }
{
    if rest <= most {
        return rest;
    }
    // What holds of every loaded configuration is learned from a call.
    let _loaded = config.count();
    let mut count = most;
    'sectors: while count > 0 {
        if ends_units(config, d, first + (count - 1)) {
            return count;
        }
        count -= 1;
    }
    most
}
