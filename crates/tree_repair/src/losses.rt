//! The covered blocks of an image that count as lost, ordered by rounds.
ghost use Rattle.std.specs.Prelude.{◌≡◌, ◌<◌, ◌%◌, max};
ghost use Rattle.std.specs.List.Sorted.{IsNonDecreasingBy, IsPermutation};
ghost use Rattle.fec_area.specs.Layouts.{IsLayout, code_rounds, covered_blocks};

use fec_area::Layout;

/// The layout of the parity, and the covered blocks that count as lost, in the order of their rounds.
#[derive(Drop)]
pub(crate) struct Losses {
    pub(crate) layout: Layout,
    pub(crate) lost: Vec<u64>,
    rounds: u64,
    ghost rounds_are: { rounds ≡ max (code_rounds layout) 1 },
    ghost in_order: { IsNonDecreasingBy (λ n. n % rounds) lost.items },
}

impl Losses {
    ghost use Rattle.tree_repair.specs.Losing.{AreLostAlike};

    /// Returns the lost blocks in the order of their rounds.
    pub(crate) fn of(layout: &Layout, lost: Vec<u64>) -> Losses
        requires { IsLayout layout.now }
        ensures layout { result.layout ≡ layout.now }
        ensures same { IsPermutation lost.items result.lost.items }
    {
        let rounds = layout.rounds().max(1);
        let mut sorted = lost;
        sorted.sort_unstable_by_key(|number| *number % rounds);
        Losses {
            layout: *layout,
            lost: sorted,
            rounds,
        }
    }

    /// Returns the lost blocks in the round of a covered block.
    pub(crate) fn beside(&self, index: u64) -> &[u64]
        requires layout { IsLayout self.now.layout }
        requires index { index < covered_blocks self.now.layout }
        ensures { AreLostAlike self.now.layout index result.now self.now.lost.items }
    {
        let rounds = self.rounds;
        let round = index % rounds;
        let lost = self.lost.as_slice();
        let first = lost.partition_point(|number| *number % rounds < round);
        let rest = &lost[first..];
        let count = rest.partition_point(|number| *number % rounds <= round);
        &rest[..count]
    }
}
