//! Partitions of disks, as bindings name them.
ghost use Rattle.std.specs.Prelude.{◌≡◌, option_map};
ghost use Rattle.command_line.specs.FilePlaces.{named_partition_record};
ghost use Rattle.command_line.specs.PartitionBindings.{kind_partition};

use crate::file_place::{NamedPartition, named_partition};
use crate::part_bindings::access_of;

/// Returns whether `rw#PARTITION` or `ro#PARTITION` is writable, and the partition that it names; `None` if the text is neither.
/// It is split at the first `#`.
pub fn kind_partition(kind: &str) -> Option<(bool, NamedPartition<'_>)>
    ensures { option_map (λ found. (found.0, named_partition_record found.1)) result ≡ kind_partition kind.now }
{
    let (access, word) = kind.split_once('#')?;
    let writable = access_of(access.as_bytes())?;
    let named = named_partition(word)?;
    Some((writable, named))
}
