//! The entries of a partition table as bytes.
ghost use Rattle.std.specs.Prelude.{◌≡◌, ◌≤◌, ◌++◌, IfErr, IfOk, OnOk, length};
ghost use Rattle.allocation.specs.Asked.{asked};
ghost use Rattle.disk_layout.specs.Entries.{entries_array, entry_bytes, label_fields, place_fields};
ghost use Rattle.disk_layout.specs.Numbers.{table_room};

use crate::numbers::{pad, push_uuid, push64};
use allocation::{OutOfMemory, append};
use partition_table::Partition;
use std::alloc::Global;

const ARRAY: usize = 16384;

/// Returns the bytes of the 128 entries: those of the partitions, in their order, and zeros.
#[tactic(auto, unfolding(crate::specs::Entries::entries_array))]
pub(crate) fn entries_array(alloc: Global, partitions: &[Partition]) -> Result<Vec<u8>, OutOfMemory>
    ensures ok { IfOk result (λ v. v.items ≡ entries_array partitions.now) }
    ensures size { IfOk result (λ v. length v.items ≡ 16384) }
    ensures err { IfErr result (λ e. asked e ≤ table_room) }
{
    let mut text = Vec::new(alloc);
    for partition in partitions {
        push_entry(&mut text, partition)?;
    }
    pad(&mut text, ARRAY)?;
    Ok(text)
}

#[tactic(auto, unfolding(crate::specs::Entries::entry_bytes))]
fn push_entry(text: &mut Vec<u8>, partition: &Partition) -> Result<(), OutOfMemory>
    ensures ok { OnOk result (text.new.items ≡ text.old.items ++ entry_bytes partition.now) }
    ensures err { IfErr result (λ e. asked e ≤ table_room) }
{
    push_places(text, partition)?;
    push_label(text, partition)?;
    Ok(())
}

// The UUIDs of the type and of the partition, and its first and last sector.
#[tactic(auto, unfolding(crate::specs::Entries::place_fields))]
fn push_places(text: &mut Vec<u8>, partition: &Partition) -> Result<(), OutOfMemory>
    ensures ok { OnOk result (text.new.items ≡ text.old.items ++ place_fields partition.now) }
    ensures err { IfErr result (λ e. asked e ≤ table_room) }
{
    push_uuid(text, &partition.kind)?;
    push_uuid(text, &partition.uuid)?;
    push64(text, partition.first)?;
    push64(text, partition.last)?;
    Ok(())
}

// The attributes, none of which is set, and the label.
#[tactic(auto, unfolding(crate::specs::Entries::label_fields))]
fn push_label(text: &mut Vec<u8>, partition: &Partition) -> Result<(), OutOfMemory>
    ensures ok { OnOk result (text.new.items ≡ text.old.items ++ label_fields partition.now) }
    ensures err { IfErr result (λ e. asked e ≤ table_room) }
{
    push64(text, 0)?;
    append(text, &partition.label)?;
    Ok(())
}
