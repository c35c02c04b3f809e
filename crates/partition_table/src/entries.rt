//! The entries of a partition table.
ghost use Rattle.std.specs.Prelude.{◌≡◌, ◌+◌, ◌*◌, ◌≤◌, ◌<◌, [], length, IfErr, IfOk};
ghost use Rattle.std.specs.List.{list_any};
ghost use Rattle.allocation.specs.Asked.{WasRefused};
ghost use Rattle.partition_table.specs.Headers.{array_bytes};
ghost use Rattle.partition_table.specs.Partitions.{entry_at, fault_behind, partitions_overlap, partition_fault, partitions_in};

use crate::header::Header;
use crate::{Partition, TableFault};
use allocation::{OutOfMemory, push};
use std::alloc::Global;

/// Returns the partitions in the entries, in order.
///
/// # Errors
///
/// `OutOfMemory` if the allocation of room for one more partition fails.
pub(crate) fn partitions_in(
    alloc: Global,
    header: &Header,
    array: &[u8],
) -> Result<Vec<Partition>, OutOfMemory>
    requires size { 128 ≤ header.now.entry_size }
    requires whole { length array.now ≡ array_bytes header.now }
    ensures ok { IfOk result (λ v. v.items ≡ partitions_in header.now array.now) }
    ensures err { IfErr result (WasRefused 1) }
{
    let size = header.entry_size as usize;
    let mut partitions = Vec::new(alloc);
    for index in 0..header.entry_count {
        let entry = entry_at(size, array, index as usize, header.entry_count as usize);
        let partition = Partition::of(index + 1, entry);
        if partition.is_used() {
            push(&mut partitions, partition)?;
        }
    }
    Ok(partitions)
}

// Returns the bytes of entry `index` of `count`.
fn entry_at(size: usize, array: &[u8], index: usize, count: usize) -> &[u8]
    requires index { index < count }
    requires whole { length array.now ≡ count * size }
    ensures value { result.now ≡ entry_at size array.now index }
    ensures size { length result.now ≡ size }
{
    &array[index * size..index * size + size]
}

/// Returns the first fault of the partitions.
pub(crate) fn first_fault(header: &Header, partitions: &[Partition]) -> Option<TableFault>
    ensures { result ≡ fault_behind header.now [] partitions.now }
{
    for (index, partition) in partitions.iter().enumerate() {
        let fault = partition_fault(header, &partitions[..index], partition);
        if fault.is_some() {
            return fault;
        }
    }
    None
}

// Returns the first fault of a partition, given the partitions before it.
fn partition_fault(
    header: &Header,
    before: &[Partition],
    partition: &Partition,
) -> Option<TableFault>
    ensures { result ≡ partition_fault header.now before.now partition.now }
{
    if partition.last < partition.first {
        return Some(TableFault::Backwards(partition.number));
    }
    if !partition.is_usable(header) {
        return Some(TableFault::OutsideUsable(partition.number));
    }
    if overlaps_any(before, partition) {
        return Some(TableFault::Overlap(partition.number));
    }
    None
}

fn overlaps_any(before: &[Partition], partition: &Partition) -> bool
    ensures { result ≡ list_any (λ q. partitions_overlap q partition.now) before.now }
{
    before.iter().any(|other| other.overlaps(partition))
}
