//! The two partitions of a verity image, found by its root digest.
ghost use Rattle.std.specs.Prelude.{◌≡◌, find, count_by};
ghost use Rattle.partition_table.specs.Partitions.{has_uuid};
ghost use Rattle.partition_commands.specs.Roots.{data_partition, image_partitions, single_with, verity_partition};

use crate::PartitionRefusal;
use partition_table::Partition;
use tree_shape::Digest;

/// The partition of a verity image's data, and that of its tree.
#[derive(Clone, Copy)]
pub struct ImagePartitions {
    pub data: Partition,
    pub verity: Partition,
}

impl ImagePartitions {
    /// Returns the two partitions whose UUIDs are the first and the last 128 bits of the root hash.
    ///
    /// # Errors
    ///
    /// `NoDataPartition`, `TwoDataPartitions`, `NoVerityPartition` or `TwoVerityPartitions` if not exactly one has such a UUID.
    pub fn find(
        partitions: &[Partition],
        root: &Digest,
    ) -> Result<ImagePartitions, PartitionRefusal>
        ensures { result ≡ image_partitions partitions.now root.now }
    {
        let data = data_partition(partitions, root)?;
        let verity = verity_partition(partitions, root)?;
        Ok(ImagePartitions { data, verity })
    }
}

#[tactic(auto, unfolding(crate::specs::Roots::data_partition))]
fn data_partition(partitions: &[Partition], root: &Digest) -> Result<Partition, PartitionRefusal>
    ensures { result ≡ data_partition partitions.now root.now }
{
    let digest = root.as_bytes();
    let none = PartitionRefusal::NoDataPartition;
    let several = PartitionRefusal::TwoDataPartitions;
    single_with(none, several, &digest[..16], partitions)
}

#[tactic(auto, unfolding(crate::specs::Roots::verity_partition))]
fn verity_partition(partitions: &[Partition], root: &Digest) -> Result<Partition, PartitionRefusal>
    ensures { result ≡ verity_partition partitions.now root.now }
{
    let digest = root.as_bytes();
    let none = PartitionRefusal::NoVerityPartition;
    let several = PartitionRefusal::TwoVerityPartitions;
    single_with(none, several, &digest[16..], partitions)
}

// The one partition with that UUID.
fn single_with(
    none: PartitionRefusal,
    several: PartitionRefusal,
    uuid: &[u8],
    partitions: &[Partition],
) -> Result<Partition, PartitionRefusal>
    ensures { result ≡ single_with none several uuid.now partitions.now }
{
    match first_with(uuid, partitions) {
        None => Err(none),
        Some(partition) => {
            if count_with(uuid, partitions) == 1 {
                Ok(partition)
            } else {
                Err(several)
            }
        }
    }
}

fn first_with(uuid: &[u8], partitions: &[Partition]) -> Option<Partition>
    ensures { result ≡ find (has_uuid uuid.now) partitions.now }
{
    partitions.iter().copied().find(|p| p.has_uuid(uuid))
}

fn count_with(uuid: &[u8], partitions: &[Partition]) -> usize
    ensures { result ≡ count_by (has_uuid uuid.now) partitions.now }
{
    partitions.iter().filter(|p| p.has_uuid(uuid)).count()
}
