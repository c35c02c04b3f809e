//! DATA, whose reads are reported as progress.
ghost use Rattle.std.specs.Prelude.{◌≡◌};

use crate::plan::DiskPlan;
use block_device::BlockDev;
use device_adapters::{Watched, Watchers, watcher_of};
use verity_format::data_sectors;

const SECTOR: u64 = 512;

/// Returns the data device. If `shown`, it is reported how many bytes of it were read, of all that filling the disk reads: its sectors
/// once for the copy, and those of its data blocks once for the tree and once for the parity.
pub(crate) fn watched_data<D: BlockDev + Drop, S: Watchers>(
    watchers: &S,
    shown: bool,
    device: D,
    plan: &DiskPlan,
) -> Watched<D, S::Watcher>
    ensures { result.inner ≡ device }
{
    let blocks = data_sectors(&plan.superblock.shape());
    let hashed = if plan.has_parity {
        blocks.saturating_mul(2)
    } else {
        blocks
    };
    let all = device.sectors().saturating_add(hashed);
    let watcher = watcher_of(watchers, shown);
    Watched::new(device, watcher, all.saturating_mul(SECTOR))
}
