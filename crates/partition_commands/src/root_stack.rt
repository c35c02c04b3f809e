//! The commands `partitions --root` and `--pin`: the stack that opens a verity image of two partitions.
ghost use Rattle.std.specs.Prelude.{◌≡◌, ℕ, List, None, IfErr, IfOk, OnOk, option_map};
ghost use Rattle.device_adapters.specs.Parts.{LiesInside};
ghost use Rattle.device_adapters.specs.Windows.{windowed};
ghost use Rattle.image_pin.specs.PinnedReads.{mismatch_of};
ghost use Rattle.verity_format.specs.Line.{parity_of};
ghost use Rattle.verity_format.specs.Verifying.{IsReadFrom};
ghost use Rattle.partition_commands.specs.Commands.{EndsNoted, NotesImage};
ghost use Rattle.partition_commands.specs.Loads.{EndsQuiet, IsRefusedRoom};
ghost use Rattle.partition_commands.specs.RootCommands.{FailsToFindPinned, FailsToFindRoot, IsFitting, IsPairEnd, IsPartSuperEnd, IsRootTextEnd, NotesPinned, PrintsPinnedOf, PrintsRootOf, SaysRoot, image_plan, unpinned_refusal};
ghost use Rattle.partition_commands.specs.RootStacks.{image_room, image_stack_text, is_unfit, line_parity};
ghost use Rattle.stack_files.specs.Warnings.{notes_of};

use crate::entries::{push_parity, push_root};
use crate::loading::say_loadable;
use crate::parity::parity_in;
use crate::parts::is_within;
use crate::signatures::{find_signature, push_signature};
use crate::warnings::find_noted;
use crate::{ImageParity, ImagePartitions, ImagePlan, PartitionRefusal, PartitionsFault};
use block_device::BlockDev;
use command_line::RootOrPin;
use device_adapters::{Part, Window};
use image_files::{Images, open_image, part_of};
use image_pin::{Pin, PinnedFault, TrustedRoot, read_pinned};
use partition_table::SectorSize;
use program_io::Counted;
use stack_files::push_linear_entry;
use std::alloc::Global;
use std::io::Write;
use std::marker::Brand;
use tree_shape::Digest;
use verity_commands::trusted_in;
use verity_format::{
    LineDevices, LineParity, Superblock, VerifyFault, data_sectors, table_line_at, tree_sectors,
};

/// `partitions --pin FILE IMAGE`: prints the stack of `root_stack_of_image` for the root hash of the pin in a file, which is read
/// before the image is opened. The superblock must have the values of the pin.
///
/// # Errors
///
/// `Pin` if the file isn't read or its text is no pin, and the errors of `root_stack_of_image`.
pub fn pinned_stack_of_image<'a, I: Images, W: Write, E: Write>(
    alloc: Global,
    images: &mut I,
    pin: &'a str,
    path: &'a str,
    plan: &ImagePlan<'a>,
    writer: &mut Counted<W>,
    errors: &mut Counted<E>,
) -> Result<(), PartitionsFault<'a>>
    ensures ok { OnOk result (PrintsPinnedOf I.relations I.Dev.state images.old images.new W.contents writer.old writer.new pin.now path.now plan.now (notes_of E.contents errors.old errors.new)) }
    ensures err { IfErr result (FailsToFindPinned I.relations I.Dev.state images.old images.new writer.new pin.now path.now plan.now) }
    ensures noted { IfErr result (NotesPinned I.relations I.Dev.state images.old images.new path.now plan.now.stack.size (notes_of E.contents errors.old errors.new)) }
    ensures quiet { IfErr result (EndsQuiet W.contents writer.old writer.new) }
{
    let trusted = trusted_in(images, &RootOrPin::Pin(pin))?;
    root_stack_of_image(alloc, images, path, plan, &trusted, writer, errors)
}

/// `partitions --root ROOT IMAGE`: prints the text of a stack with the devices `data`, which is writable if the plan says so, and
/// `hash` over the two partitions of a root hash, `parity` over the one that the plan names, `root`, the data blocks checked and, by
/// the parity, restored, and `signature` over the partition that holds the signature of the root hash, if there is one. `load` takes
/// it.
///
/// # Errors
///
/// - `Open` if the image isn't opened.
/// - `Refused` if there is no table, not exactly one partition of each half of the root hash, or no image in them; or with a
///   pin if the superblock has other values.
/// - `Open` with `NotFound`, `Refused` with `OutsideDevice` or `Fec` if the parity's partition isn't there or can't serve.
/// - `NotLoadable` if `load` would refuse the text.
/// - `NoMemory` if the line of `root`, or at most 511 elements for the text and its check, were refused room.
/// - `Write` if the writer failed.
pub fn root_stack_of_image<'a, I: Images, W: Write, E: Write>(
    alloc: Global,
    images: &mut I,
    path: &'a str,
    plan: &ImagePlan<'a>,
    trusted: &TrustedRoot,
    writer: &mut Counted<W>,
    errors: &mut Counted<E>,
) -> Result<(), PartitionsFault<'a>>
    ensures ok { OnOk result (PrintsRootOf I.relations I.Dev.state images.old images.new W.contents writer.old writer.new path.now plan.now trusted.now (notes_of E.contents errors.old errors.new)) }
    ensures err { IfErr result (FailsToFindRoot I.relations I.Dev.state images.old images.new writer.new path.now plan.now trusted.now) }
    ensures noted { IfErr result (NotesImage I.relations I.Dev.state images.old images.new path.now plan.now.stack.size (notes_of E.contents errors.old errors.new)) }
    ensures quiet { IfErr result (EndsQuiet W.contents writer.old writer.new) }
{
    let image = open_image(images, path, false)?;
    print_root_stack(alloc, image.device, plan, trusted, writer, errors)
}

// The two partitions of an image, its superblock, and its parity in a third partition.
#[derive(Clone, Copy)]
struct FoundImage {
    both: ImagePartitions,
    superblock: Superblock,
    parity: Option<ImageParity>,
}

// Prints the stack of a root's partitions on an open device.
fn print_root_stack<'a, D: BlockDev + Drop, W: Write, E: Write>(
    alloc: Global,
    device: D,
    plan: &ImagePlan<'a>,
    trusted: &TrustedRoot,
    writer: &mut Counted<W>,
    errors: &mut Counted<E>,
) -> Result<(), PartitionsFault<'a>>
    ensures ok { OnOk result (SaysRoot D.state device W.contents writer.old writer.new plan.now trusted.now (notes_of E.contents errors.old errors.new)) }
    ensures err { IfErr result (IsRootTextEnd D.state (image_plan plan.now) trusted.now writer.new.failed device) }
    ensures noted { IfErr result (EndsNoted (D.state device) plan.now.stack.size (notes_of E.contents errors.old errors.new)) }
    ensures quiet { IfErr result (EndsQuiet W.contents writer.old writer.new) }
{
    let mut device = device;
    let table = find_noted(alloc, &mut device, plan.stack.size, errors)?;
    let both = ImagePartitions::find(&table.partitions, &trusted.root)?;
    let signed = find_signature(&mut device, table.size, &table.partitions, &trusted.root);
    let sectors = device.sectors();
    let superblock = superblock_of(device, table.size, &both, &trusted.pin)?;
    let parity = parity_in(alloc, sectors, &table, &both, &superblock, &plan.fec)?;
    let writable = plan.stack.writable;
    let found = FoundImage {
        both,
        superblock,
        parity,
    };
    let mut text = root_text(alloc, writable, table.size, &found, &trusted.root)?;
    push_signature(&mut text, table.size, &signed)?;
    say_loadable(alloc, writer, writable, sectors, &text)
}

// The superblock of two partitions that hold an image by it, with the values of the pin, if there is one.
fn superblock_of<D: BlockDev + Drop>(
    device: D,
    size: SectorSize,
    both: &ImagePartitions,
    pin: &Option<Pin>,
) -> Result<Superblock, PartitionRefusal>
    ensures ok { IfOk result (IsFitting (D.state device) size both.now pin.now) }
    ensures err { IfErr result (λ refusal. (after : D) × IsPairEnd (D.state device) (D.state after) size both.now pin.now refusal) }
{
    let data = part_of(size, &both.data);
    if !is_within(&device, data) {
        return Err(PartitionRefusal::OutsideDevice);
    }
    let superblock = superblock_in(device, part_of(size, &both.verity), pin)?;
    if is_unfit(size, both, &superblock) {
        return Err(PartitionRefusal::Superblock(VerifyFault::TooSmall));
    }
    Ok(superblock)
}

// Whether a partition is too small for the data blocks or the tree of a superblock.
fn is_unfit(size: SectorSize, both: &ImagePartitions, superblock: &Superblock) -> bool
    ensures { result ≡ is_unfit size both.now superblock.now }
{
    let shape = superblock.tree().shape;
    part_of(size, &both.data).count < data_sectors(&shape)
        || part_of(size, &both.verity).count < tree_sectors(&shape)
}

// The superblock at the beginning of a part of a device, with the values of the pin, if there is one.
fn superblock_in<D: BlockDev + Drop>(
    device: D,
    part: Part,
    pin: &Option<Pin>,
) -> Result<Superblock, PartitionRefusal>
    ensures ok { IfOk result (λ s. LiesInside (D.state device) part × ((sector : List ℕ) × IsReadFrom (windowed (D.state device) part) sector s) × (mismatch_of pin.now s ≡ None)) }
    ensures err { IfErr result (λ refusal. (after : D) × IsPartSuperEnd (D.state device) (D.state after) part pin.now refusal) }
{
    let mut window = match Window::<D, Brand>::new(device, part) {
        Ok(window) => window,
        Err(_) => return Err(PartitionRefusal::OutsideDevice),
    };
    match read_pinned(&mut window, pin) {
        Ok(superblock) => Ok(superblock),
        Err(fault) => Err(unpinned_refusal(fault)),
    }
}

// With which refusal the command ends if a part of the device has no superblock of the pin.
fn unpinned_refusal(fault: PinnedFault) -> PartitionRefusal
    ensures { result ≡ unpinned_refusal fault }
{
    match fault {
        PinnedFault::Unread(fault) => PartitionRefusal::Superblock(fault),
        PinnedFault::Unpinned(mismatch) => PartitionRefusal::Unpinned(mismatch),
    }
}

// The two partitions, and the data blocks over both, with the parity, if there is one; the device of the data is writable if it
// says so.
fn root_text<'a>(
    alloc: Global,
    writable: bool,
    size: SectorSize,
    found: &FoundImage,
    root: &Digest,
) -> Result<Vec<u8>, PartitionsFault<'a>>
    ensures ok { IfOk result (λ text. text.items ≡ image_stack_text writable size found.now.both found.now.superblock root.now found.now.parity) }
    ensures err { IfErr result (IsRefusedRoom (image_room found.now.superblock root.now found.now.parity)) }
{
    let devices = LineDevices {
        data: b"/dev/mapper/data",
        hash: b"/dev/mapper/hash",
        parity: line_parity(&found.parity),
    };
    let line = table_line_at(alloc, &found.superblock.tree(), devices, root, 1)?;
    let mut text = Vec::new(alloc);
    push_linear_entry(
        &mut text,
        writable,
        b"data",
        part_of(size, &found.both.data),
    )?;
    push_linear_entry(&mut text, false, b"hash", part_of(size, &found.both.verity))?;
    push_parity(&mut text, &found.parity)?;
    push_root(&mut text, &line)?;
    Ok(text)
}

// The parity in the line of `root`.
fn line_parity(parity: &Option<ImageParity>) -> Option<LineParity<'static>>
    ensures { parity_of result ≡ option_map line_parity parity.now }
{
    match parity {
        Some(parity) => Some(LineParity {
            device: b"/dev/mapper/parity",
            roots: parity.roots,
            blocks: parity.blocks,
        }),
        None => None,
    }
}
