//! A partition over a part of a disk.
ghost use Rattle.std.specs.Prelude.{◌≡◌, ◌≤◌, ◌-◌, ◌++◌, length, replicate};
ghost use Rattle.disk_layout.specs.Made.{partition_at};

use device_adapters::Part;
use partition_table::{Partition, SectorSize};

/// Returns the partition of that type, UUID and label over a part of a disk, which begins and ends with sectors of the disk.
pub fn partition_at(
    kind: [u8; 16],
    uuid: [u8; 16],
    label: [u8; 72],
    size: SectorSize,
    number: u32,
    part: Part,
) -> Partition
    ensures { result ≡ partition_at kind uuid label size number part }
{
    let end = part.first.saturating_add(part.count) / size.unit();
    Partition {
        number,
        kind,
        uuid,
        first: part.first / size.unit(),
        last: end.saturating_sub(1),
        label,
    }
}

/// Returns a label of these bytes, UTF-16, little-endian.
pub fn label_of(text: &[u8]) -> [u8; 72]
    requires { length text.now ≤ 72 }
    ensures { result ≡ text.now ++ replicate (72 - length text.now) 0 }
{
    let mut label = [0; 72];
    label[..text.len()].copy_from_slice(text);
    label
}
