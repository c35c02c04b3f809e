//! The commands `partitions`, `partitions --json` and `partitions --stack`, of an image.
ghost use Rattle.std.specs.Prelude.{◌≡◌, ◌≤◌, ◌++◌, IfErr, IfOk, OnOk};
ghost use Rattle.allocation.specs.Asked.{asked};
ghost use Rattle.partition_commands.specs.Commands.{EndsNoted, FailsToPrint, FailsToPrintObject, FailsToStack, IsEntriesEnd, IsLinesEnd, IsObjectEnd, NotesImage, Prints, PrintsEntriesOf, PrintsImage, PrintsStackOf};
ghost use Rattle.partition_commands.specs.Lines.{listed_text};
ghost use Rattle.partition_commands.specs.Loads.{EndsQuiet, IsStackEnd, SaysLoadable, stack_room};
ghost use Rattle.partition_commands.specs.Objects.{object_text};
ghost use Rattle.partition_commands.specs.Stacks.{partition_entry, stack_text};
ghost use Rattle.stack_files.specs.Warnings.{notes_of};

use crate::loading::say_loadable;
use crate::object::table_line;
use crate::parts::are_within;
use crate::warnings::find_noted;
use crate::{
    PartitionRefusal, PartitionsFault, PrintFault, StackPlan, partition_name, print_partitions,
};
use allocation::OutOfMemory;
use block_device::BlockDev;
use image_files::{Images, open_image, part_of};
use partition_table::{Partition, SectorSize};
use program_io::Counted;
use stack_files::push_linear_entry;
use stack_loader::MOST_DEVICES;
use std::alloc::Global;
use std::io::Write;

/// `partitions IMAGE`: prints which copies of the image's table are good, and a line for each partition.
///
/// # Errors
///
/// - `Open` if the image can't be opened.
/// - `Refused` if it has no good table.
/// - `NoMemory` if memory for a label was refused.
/// - `Write` if a line can't be written.
pub fn partitions_of_image<'a, I: Images, W: Write, E: Write>(
    alloc: Global,
    images: &mut I,
    path: &'a str,
    size: SectorSize,
    writer: &mut Counted<W>,
    errors: &mut Counted<E>,
) -> Result<(), PartitionsFault<'a>>
    ensures ok { OnOk result (PrintsImage I.relations I.Dev.state images.old images.new W.contents writer.old writer.new path.now size listed_text (notes_of E.contents errors.old errors.new)) }
    ensures err { IfErr result (FailsToPrint I.relations I.Dev.state images.old images.new writer.new path.now size) }
    ensures noted { IfErr result (NotesImage I.relations I.Dev.state images.old images.new path.now size (notes_of E.contents errors.old errors.new)) }
{
    let mut image = open_image(images, path, false)?;
    list_partitions(alloc, &mut image.device, size, writer, errors)
}

// Prints the partitions of an open device.
fn list_partitions<'a, D: BlockDev, W: Write, E: Write>(
    alloc: Global,
    device: &mut D,
    size: SectorSize,
    writer: &mut Counted<W>,
    errors: &mut Counted<E>,
) -> Result<(), PartitionsFault<'a>>
    ensures ok { OnOk result (Prints D.state device.old device.new W.contents writer.old writer.new size listed_text (notes_of E.contents errors.old errors.new)) }
    ensures err { IfErr result (IsLinesEnd (D.state device.old) (D.state device.new) size writer.new.failed) }
    ensures noted { IfErr result (EndsNoted (D.state device.old) size (notes_of E.contents errors.old errors.new)) }
{
    match print_partitions(alloc, device, size, writer, errors) {
        Ok(()) => Ok(()),
        Err(PrintFault::NoMemory) => Err(PartitionsFault::NoMemory),
        Err(PrintFault::Table(fault)) => Err(PartitionsFault::from(fault)),
        Err(PrintFault::Write) => Err(PartitionsFault::Write),
    }
}

/// `partitions --json IMAGE`: prints the partition table of the image as a JSON object on one line.
///
/// # Errors
///
/// - `Open` if the image can't be opened.
/// - `Refused` if it has no good table.
/// - `NoMemory` if a table was found and memory for the object ran out.
/// - `Write` if the line can't be written.
pub fn object_of_image<'a, I: Images, W: Write, E: Write>(
    alloc: Global,
    images: &mut I,
    path: &'a str,
    size: SectorSize,
    writer: &mut Counted<W>,
    errors: &mut Counted<E>,
) -> Result<(), PartitionsFault<'a>>
    ensures ok { OnOk result (PrintsImage I.relations I.Dev.state images.old images.new W.contents writer.old writer.new path.now size object_text (notes_of E.contents errors.old errors.new)) }
    ensures err { IfErr result (FailsToPrintObject I.relations I.Dev.state images.old images.new writer.new path.now size) }
    ensures noted { IfErr result (NotesImage I.relations I.Dev.state images.old images.new path.now size (notes_of E.contents errors.old errors.new)) }
    ensures quiet { IfErr result (EndsQuiet W.contents writer.old writer.new) }
{
    let mut image = open_image(images, path, false)?;
    list_object(alloc, &mut image.device, size, writer, errors)
}

// Prints the partition table of an open device as an object.
fn list_object<'a, D: BlockDev, W: Write, E: Write>(
    alloc: Global,
    device: &mut D,
    size: SectorSize,
    writer: &mut Counted<W>,
    errors: &mut Counted<E>,
) -> Result<(), PartitionsFault<'a>>
    ensures ok { OnOk result (Prints D.state device.old device.new W.contents writer.old writer.new size object_text (notes_of E.contents errors.old errors.new)) }
    ensures err { IfErr result (IsObjectEnd (D.state device.old) (D.state device.new) size writer.new.failed) }
    ensures noted { IfErr result (EndsNoted (D.state device.old) size (notes_of E.contents errors.old errors.new)) }
    ensures quiet { IfErr result (EndsQuiet W.contents writer.old writer.new) }
{
    let table = find_noted(alloc, device, size, errors)?;
    let line = table_line(alloc, &table)?;
    writer.put(line.as_bytes())?;
    Ok(())
}

/// `partitions --stack IMAGE`: prints the text of a stack with a device for each partition, which is writable if the plan says so,
/// over the leaf DISK. `load` takes it.
///
/// # Errors
///
/// - `Open` if the image can't be opened.
/// - `Refused` if it has no good table, or a partition isn't inside the image.
/// - `NotLoadable` if `load` would refuse the stack.
/// - `NoMemory` if an allocation was refused.
/// - `Write` if the text can't be written.
pub fn stack_of_image<'a, I: Images, W: Write, E: Write>(
    alloc: Global,
    images: &mut I,
    path: &'a str,
    plan: &StackPlan,
    writer: &mut Counted<W>,
    errors: &mut Counted<E>,
) -> Result<(), PartitionsFault<'a>>
    ensures ok { OnOk result (PrintsStackOf I.relations I.Dev.state images.old images.new W.contents writer.old writer.new path.now plan.now (notes_of E.contents errors.old errors.new)) }
    ensures err { IfErr result (FailsToStack I.relations I.Dev.state images.old images.new writer.new path.now plan.now) }
    ensures noted { IfErr result (NotesImage I.relations I.Dev.state images.old images.new path.now plan.now.size (notes_of E.contents errors.old errors.new)) }
    ensures quiet { IfErr result (EndsQuiet W.contents writer.old writer.new) }
{
    let mut image = open_image(images, path, false)?;
    list_entries(alloc, &mut image.device, plan, writer, errors)
}

// Prints the stack of all partitions of an open device.
fn list_entries<'a, D: BlockDev, W: Write, E: Write>(
    alloc: Global,
    device: &mut D,
    plan: &StackPlan,
    writer: &mut Counted<W>,
    errors: &mut Counted<E>,
) -> Result<(), PartitionsFault<'a>>
    ensures ok { OnOk result (PrintsEntriesOf D.state device.old device.new W.contents writer.old writer.new plan.now (notes_of E.contents errors.old errors.new)) }
    ensures err { IfErr result (IsEntriesEnd (D.state device.old) (D.state device.new) plan.now writer.new.failed) }
    ensures noted { IfErr result (EndsNoted (D.state device.old) plan.now.size (notes_of E.contents errors.old errors.new)) }
    ensures quiet { IfErr result (EndsQuiet W.contents writer.old writer.new) }
{
    let table = find_noted(alloc, device, plan.size, errors)?;
    if !are_within(device, table.size, &table.partitions) {
        return Err(PartitionsFault::Refused(PartitionRefusal::OutsideDevice));
    }
    let sectors = device.sectors();
    say_stack(
        alloc,
        writer,
        plan.writable,
        sectors,
        table.size,
        &table.partitions,
    )
}

// An entry for each partition.
fn say_stack<'a, W: Write>(
    alloc: Global,
    writer: &mut Counted<W>,
    writable: bool,
    sectors: u64,
    size: SectorSize,
    partitions: &[Partition],
) -> Result<(), PartitionsFault<'a>>
    ensures ok { OnOk result (SaysLoadable W.contents writer.old writer.new writable sectors (stack_text writable size partitions.now)) }
    ensures err { IfErr result (IsStackEnd writable sectors size partitions.now writer.new.failed) }
    ensures quiet { IfErr result (EndsQuiet W.contents writer.old writer.new) }
{
    if partitions.len() > MOST_DEVICES as usize {
        return Err(PartitionsFault::NotLoadable);
    }
    let text = stack_text(alloc, writable, size, partitions)?;
    say_loadable(alloc, writer, writable, sectors, &text)
}

fn stack_text(
    alloc: Global,
    writable: bool,
    size: SectorSize,
    partitions: &[Partition],
) -> Result<Vec<u8>, OutOfMemory>
    ensures ok { IfOk result (λ text. text.items ≡ stack_text writable size partitions.now) }
    ensures err { IfErr result (λ e. asked e ≤ stack_room) }
{
    let mut text = Vec::new(alloc);
    for partition in partitions {
        push_partition_entry(alloc, &mut text, writable, size, partitions, partition)?;
    }
    Ok(text)
}

#[tactic(auto, unfolding(crate::specs::Stacks::partition_entry))]
fn push_partition_entry(
    alloc: Global,
    text: &mut Vec<u8>,
    writable: bool,
    size: SectorSize,
    partitions: &[Partition],
    partition: &Partition,
) -> Result<(), OutOfMemory>
    ensures ok { OnOk result (text.new.items ≡ text.old.items ++ partition_entry writable size partitions.now partition.now) }
    ensures err { IfErr result (λ e. asked e ≤ stack_room) }
{
    let name = partition_name(alloc, partitions, partition)?;
    push_linear_entry(text, writable, name.as_bytes(), part_of(size, partition))
}
