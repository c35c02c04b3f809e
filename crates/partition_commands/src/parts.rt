//! Where a partition lies on the device.
ghost use Rattle.std.specs.Prelude.{◌≡◌};
ghost use Rattle.partition_commands.specs.Parts.{are_within, ends_by, is_within};

use block_device::BlockDev;
use device_adapters::Part;
use image_files::part_of;
use partition_table::{Partition, SectorSize};

/// Whether the part ends on the device.
pub(crate) fn is_within<D: BlockDev>(device: &D, part: Part) -> bool
    ensures { result ≡ is_within (D.state device.now) part }
{
    ends_by(device.sectors(), part)
}

/// Whether the part ends within so many sectors.
pub(crate) fn ends_by(sectors: u64, part: Part) -> bool
    ensures { result ≡ ends_by sectors part }
{
    u128::from(part.first) + u128::from(part.count) <= u128::from(sectors)
}

/// Whether all partitions end on the device.
pub(crate) fn are_within<D: BlockDev>(
    device: &D,
    size: SectorSize,
    partitions: &[Partition],
) -> bool
    ensures { result ≡ are_within (D.state device.now) size partitions.now }
{
    partitions
        .iter()
        .all(|partition| is_within(device, part_of(size, partition)))
}
