//! How many sectors a pass in large pieces skips after a read that failed.
ghost use Rattle.std.specs.Prelude.{◌≡◌};
ghost use Rattle.stack_recovery.specs.Skips.{longer_skip, most_skip};

/// The first skip of a device, 64 KiB.
pub const LEAST_SKIP: u64 = 128;

/// The longest skip of any device, 1 GiB.
const MOST_SKIP: u64 = 2_097_152;

/// Returns the most sectors that are skipped at once on a device of so many: a hundredth of them, in multiples of 64 KiB, but at most 1 GiB.
#[tactic(auto, unfolding(crate::specs::Skips::most_skip))]
pub fn most_skip(sectors: u64) -> u64
    ensures value { result ≡ most_skip sectors }
{
    (sectors / 100 / LEAST_SKIP * LEAST_SKIP)
        .max(LEAST_SKIP)
        .min(MOST_SKIP)
}

/// Returns how many sectors are skipped after the next failed read, if `skip` were after this one.
pub(crate) fn longer_skip(skip: u64, most: u64) -> u64
    ensures { result ≡ longer_skip most skip }
{
    skip.saturating_mul(2).min(most)
}
