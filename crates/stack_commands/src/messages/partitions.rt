//! The sentences on `partitions`.
ghost use Rattle.std.specs.Prelude.{◌≡◌};
ghost use Rattle.command_line.specs.FormatOptions.{text_of};
ghost use Rattle.stack_commands.specs.messages.Partitions.{partition_message, partitions_message};

use crate::messages::images::{fec_message, image_message};
use manual_pages::{mismatch_message, open_message, verify_message};
use partition_commands::{PartitionRefusal, PartitionsFault};

/// Returns the sentence on partitions that can't serve, if there is one.
#[tactic(auto, unfolding(crate::specs::messages::Partitions::partition_message))]
pub fn partition_message(refusal: PartitionRefusal) -> Option<&'static str>
    ensures { text_of result ≡ partition_message refusal }
{
    match refusal {
        PartitionRefusal::Table(_) => Some(
            "there is no valid GUID partition table: give the image of the whole disk",
        ),
        PartitionRefusal::NoDataPartition => Some(
            "no partition has the UUID of the root hash's first half: the root may be another version's",
        ),
        PartitionRefusal::TwoDataPartitions => Some(
            "two partitions have the UUID of the root hash's first half: remove one",
        ),
        PartitionRefusal::NoVerityPartition => Some(
            "no partition has the UUID of the root hash's second half: the root may be another version's",
        ),
        PartitionRefusal::TwoVerityPartitions => Some(
            "two partitions have the UUID of the root hash's second half: remove one",
        ),
        PartitionRefusal::OutsideDevice => Some(
            "a partition ends past the end of the disk: the image was cut short",
        ),
        PartitionRefusal::Superblock(fault) => verify_message(fault),
        PartitionRefusal::Unpinned(mismatch) => Some(mismatch_message(mismatch)),
    }
}

/// Returns the sentence on a command on partitions that ends early, if there is one.
#[tactic(auto, unfolding(crate::specs::messages::Partitions::partitions_message))]
pub fn partitions_message(fault: PartitionsFault<'_>) -> Option<&'static str>
    ensures { text_of result ≡ partitions_message fault.entry }
{
    match fault {
        PartitionsFault::NoMemory => None,
        PartitionsFault::Open(file) => open_message(file.fault),
        PartitionsFault::Pin(fault) => image_message(fault),
        PartitionsFault::Refused(refusal) => partition_message(refusal),
        PartitionsFault::Fec(fault) => fec_message(fault),
        PartitionsFault::NotLoadable => Some(
            "'dmstack load' would refuse the stack, as one of more than 64 partitions: use '--root'",
        ),
        PartitionsFault::Write => None,
    }
}
