//! What is known of an image after a repair.
ghost use Rattle.std.specs.Prelude.{◌≡◌, ◌&&◌, false, IsTrue};
ghost use Rattle.tree_repair.specs.Failures.{AreUncounted};
ghost use Rattle.tree_repair.specs.Noting.{pass_outcome};

use crate::image::DamagedImage;
use block_device::BlockDev;

/// What is known of an image after a repair that wasn't ended by an error.
#[derive(Clone, Copy, Debug, PartialEq, Eq)]
pub enum Outcome {
    /// Each block of the tree was visited and is valid: this number of data blocks, and all hash blocks above them. No call of
    /// the image's devices failed.
    Whole(u64),
    /// Some blocks are corrupt or weren't visited, or a call failed.
    Partly,
}

/// The failure counters of an image's data device and hash device.
#[derive(Clone, Copy)]
pub(crate) struct Failures {
    data: u64,
    hash: u64,
}

impl Failures {
    /// Returns the current values of the counters.
    pub(crate) fn of<D: BlockDev, H: BlockDev, C: BlockDev>(
        image: &DamagedImage<D, H, C>,
    ) -> Failures
        ensures data { result.data ≡ image.now.world.data_dev.failures }
        ensures hash { result.hash ≡ image.now.world.hash_dev.failures }
    {
        Failures {
            data: image.data.failures(),
            hash: image.hash.failures(),
        }
    }

    /// Returns whether no failure was counted since.
    pub(crate) fn none_since<D: BlockDev, H: BlockDev, C: BlockDev>(
        self,
        image: &DamagedImage<D, H, C>,
    ) -> bool
        ensures none { IsTrue result → AreUncounted self image.now.world }
        ensures some { result ≡ false → AreUncounted self image.now.world → ⊥ }
    {
        let now = Failures::of(image);
        if now.data != self.data || now.hash != self.hash {
            return false;
        }
        now.data < u64::MAX && now.hash < u64::MAX
    }
}

/// Returns the outcome for an image of so many data blocks: `Whole` if all blocks are valid and no call failed.
pub(crate) fn outcome_of(good: bool, sure: bool, blocks: u64) -> Outcome
    ensures { result ≡ pass_outcome (good && sure) blocks }
{
    if good && sure {
        return Outcome::Whole(blocks);
    }
    Outcome::Partly
}
