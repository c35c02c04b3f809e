//! Stack texts over the disk alone, printed only if `load` takes them.
ghost use Rattle.std.specs.Prelude.{◌≡◌, ◌≤◌, IfErr, IfOk, OnOk};
ghost use Rattle.allocation.specs.Asked.{asked};
ghost use Rattle.partition_commands.specs.Loads.{EndsQuiet, IsLoadableEnd, SaysLoadable, disk_leaves, load_end, stack_room};

use crate::PartitionsFault;
use allocation::{OutOfMemory, copied, push};
use program_io::Counted;
use stack_config::Leaf;
use stack_files::{MOST_TEXT, StackFault, configuration_of};
use std::alloc::Global;
use std::io::Write;

/// Prints a stack text, unless `load` would refuse it over a disk of so many sectors, writable or not; then nothing is printed.
///
/// # Errors
///
/// - `NotLoadable` if `load` would refuse the text.
/// - `NoMemory` if the check of the text was refused room for at most 511 elements.
/// - `Write` if the writer failed.
pub(crate) fn say_loadable<'a, W: Write>(
    alloc: Global,
    writer: &mut Counted<W>,
    writable: bool,
    sectors: u64,
    text: &[u8],
) -> Result<(), PartitionsFault<'a>>
    ensures ok { OnOk result (SaysLoadable W.contents writer.old writer.new writable sectors text.now) }
    ensures err { IfErr result (IsLoadableEnd writable sectors text.now writer.new.failed) }
    ensures quiet { IfErr result (EndsQuiet W.contents writer.old writer.new) }
{
    if text.len() > MOST_TEXT {
        return Err(PartitionsFault::NotLoadable);
    }
    let leaves = disk_leaves(alloc, writable, sectors)?;
    let _config = match configuration_of(alloc, leaves, text) {
        Ok(config) => config,
        Err(fault) => return Err(load_end(fault)),
    };
    writer.put(text)?;
    Ok(())
}

// How a command ends if a stack text makes no configuration.
fn load_end<'a>(fault: StackFault<'_>) -> PartitionsFault<'a>
    ensures { result ≡ load_end fault.entry }
{
    match fault {
        StackFault::NoMemory => PartitionsFault::NoMemory,
        StackFault::TooLong
        | StackFault::Open(_)
        | StackFault::Outside(_)
        | StackFault::Leaves(_)
        | StackFault::Text(_)
        | StackFault::Load(_)
        | StackFault::NoSuchDevice => PartitionsFault::NotLoadable,
    }
}

// The backing device DISK.
fn disk_leaves(alloc: Global, writable: bool, sectors: u64) -> Result<Vec<Leaf>, OutOfMemory>
    ensures ok { IfOk result (λ leaves. leaves.items ≡ disk_leaves writable sectors) }
    ensures err { IfErr result (λ e. asked e ≤ stack_room) }
{
    let leaf = Leaf {
        name: copied(alloc, b"DISK")?,
        sectors,
        writable,
    };
    let mut leaves = Vec::new(alloc);
    push(&mut leaves, leaf)?;
    Ok(leaves)
}
