//! What the mapped device over a partition is called.
ghost use Rattle.std.specs.Prelude.{◌≡◌, ◌&&◌, ◌||◌, ◌==◌, ◌≤◌, not, IfOk, IfErr, length, string_bytes};
ghost use Rattle.std.specs.Str.{bytes_eq};
ghost use Rattle.allocation.specs.Asked.{asked};
ghost use Rattle.dm_table.specs.Names.{is_mapped_name, most_name};
ghost use Rattle.partition_table.specs.Labels.{label_text, name_room};
ghost use Rattle.partition_commands.specs.Names.{is_option_like, is_taken, is_taken_by, numbered_name, partition_name};

use allocation::{OutOfMemory, joined};
use dm_table::is_mapped_name;
use itoa::Buffer;
use partition_table::{Partition, label_text};
use std::alloc::Global;

/// Returns the label if it is a name of a mapped device, doesn't begin with `-` and isn't another partition's, and else
/// `p` and the number.
///
/// # Errors
///
/// `OutOfMemory` if the allocator refused room for a label or a name.
#[tactic(auto, unfolding(crate::specs::Names::partition_name))]
pub fn partition_name(
    alloc: Global,
    partitions: &[Partition],
    partition: &Partition,
) -> Result<String, OutOfMemory>
    ensures ok { IfOk result (λ name. string_bytes name ≡ partition_name partitions.now partition.now) }
    ensures short { IfOk result (λ name. length (string_bytes name) ≤ most_name) }
    ensures err { IfErr result (λ e. asked e ≤ name_room) }
{
    let label = label_text(alloc, &partition.label)?;
    if is_mapped_name(label.as_bytes())
        && !is_option_like(label.as_bytes())
        && !is_taken(alloc, partitions, partition.number, label.as_str())?
    {
        return Ok(label);
    }
    numbered_name(alloc, partition.number)
}

// Whether a name could be read as an option.
#[tactic(auto, unfolding(crate::specs::Names::is_option_like))]
fn is_option_like(name: &[u8]) -> bool
    ensures { result ≡ is_option_like name.now }
{
    name.starts_with(b"-")
}

// Whether another partition has that label, or that name by its number.
fn is_taken(
    alloc: Global,
    partitions: &[Partition],
    number: u32,
    name: &str,
) -> Result<bool, OutOfMemory>
    ensures ok { IfOk result (λ taken. taken ≡ is_taken partitions.now number name.now) }
    ensures err { IfErr result (λ e. asked e ≤ name_room) }
{
    for partition in partitions {
        if is_taken_by(alloc, number, name, partition)? {
            return Ok(true);
        }
    }
    Ok(false)
}

#[tactic(auto, unfolding(crate::specs::Names::is_taken_by))]
fn is_taken_by(
    alloc: Global,
    number: u32,
    name: &str,
    partition: &Partition,
) -> Result<bool, OutOfMemory>
    ensures ok { IfOk result (λ taken. taken ≡ is_taken_by number name.now partition.now) }
    ensures err { IfErr result (λ e. asked e ≤ name_room) }
{
    let label = label_text(alloc, &partition.label)?;
    let numbered = numbered_name(alloc, partition.number)?;
    Ok(partition.number != number && (label.as_str() == name || numbered.as_str() == name))
}

#[tactic(auto, unfolding(crate::specs::Names::numbered_name))]
fn numbered_name(alloc: Global, number: u32) -> Result<String, OutOfMemory>
    ensures ok { IfOk result (λ name. string_bytes name ≡ numbered_name number) }
    ensures short { IfOk result (λ name. length (string_bytes name) ≤ most_name) }
    ensures err { IfErr result (λ e. asked e ≤ name_room) }
{
    let mut digits = Buffer::new();
    joined(alloc, "p", digits.format(number))
}
