//! Where a row of a tree is.
ghost use Rattle.std.specs.Prelude.{◌≡◌};
ghost use Rattle.std.specs.Option.{option_map};

use std::marker::Model;

/// The most levels of rows beneath a device: the greatest depth of a device.
const LEVELS: usize = 8;

/// Of each device above a row whether it has further rows, and how many levels may follow.
#[derive(Drop)]
pub(crate) struct Place {
    bars: [bool; LEVELS],
    level: usize,
}

impl Model for Place {
    ghost use Rattle.std.specs.Prelude.{◌≤◌, ◌-◌, take};
    ghost use Rattle.scan_commands.specs.Trees.{PlaceRecord};

    ghost Value = { PlaceRecord };

    ghost view = { λ p. record { bars = take p.level p.bars; steps = 8 - p.level } };

    ghost invariant = { λ p. p.level ≤ 8 };
}

impl Place {
    ghost use Rattle.std.specs.Prelude.{[]};
    ghost use Rattle.scan_commands.specs.Trees.{place_beneath};

    /// Returns the place of the rows of a device at the left.
    pub(crate) fn top() -> Place
        ensures { result ≡ record { bars = []; steps = 8 } }
    {
        Place {
            bars: [false; LEVELS],
            level: 0,
        }
    }

    /// Returns the place of the rows beneath a row of this place, which has further rows after it if `bar` is true; none if there
    /// are too many levels.
    pub(crate) fn beneath(&self, bar: bool) -> Option<Place>
        ensures { option_map (λ place. place) result ≡ place_beneath self.now.bars self.now.steps bar }
    {
        if self.level >= LEVELS {
            return None;
        }
        let mut bars = self.bars;
        bars[self.level] = bar;
        Some(Place {
            bars,
            level: self.level + 1,
        })
    }

    /// Returns of each device above whether it has further rows.
    pub(crate) fn bars(&self) -> &[bool]
        ensures { result.now ≡ self.now.bars }
    {
        &self.bars[..self.level]
    }
}
