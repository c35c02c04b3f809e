//! The command `repair`: seeks corrupt blocks in copies, and reports what is still lost.
ghost use Rattle.std.specs.Prelude.{◌≡◌, ◌≤◌, ◌^◌, IfErr, OnOk};
ghost use Rattle.tree_repair.specs.Repairs.{IsAllowed};
ghost use Rattle.repair_commands.specs.Commands.{AreRepaired, AreUnrepaired, GivesBackBoth, IsPairMended, IsPairUnmended, pair_world, plan_at};

use crate::devices::repair_devices;
use crate::found_tree::{FoundTree, find_repaired_tree};
use crate::opening::{Copies, Opened, open_all};
use crate::pair::{Pair, Parts, RepairPlaces};
use block_device::BlockDev;
use command_line::ImageCopy;
use image_commands::{SoughtTree, may_seek};
use image_files::Images;
use program_io::Counted;
use std::alloc::Global;
use std::io::Write;
use tree_repair::{DamagedImage, Plan};
use verity_commands::TreeFault;

/// Runs `repair [--check] [--hash-offset BYTES] DATA HASH ROOT [COPY ..]`, also with `--no-superblock`. It prints a line for each corrupt block that was
/// found in a copy, and then what `verify --all` prints. If the repair left all blocks valid, they aren't read again for that.
/// Each copy is read at the block's offset in DATA or in HASH. A superblock is read once.
///
/// # Errors
///
/// - `Open` if a file can't be opened, or conflicts with an open one.
/// - `Survey` if there is no superblock, an image is too small, a device failed, or memory ran out.
/// - `Unaligned`, `NoShape`, `Unpinned` or `UnusedEntries` if the image is refused before anything is written.
/// - `Damaged` if blocks are still lost.
/// - `Write` if a line can't be written.
pub fn repair_images<'a, I: Images, W: Write>(
    alloc: Global,
    images: &mut I,
    places: RepairPlaces<'a>,
    copies: &[ImageCopy<'a>],
    sought: &SoughtTree,
    writer: &mut Counted<W>,
) -> Result<(), TreeFault<'a>>
    requires { places.hash_first ≤ 2 ^ 55 }
    ensures ok { OnOk result (AreRepaired I.relations I.Dev.state images.old images.new places.entry copies.now sought.now W.contents writer.old writer.new) }
    ensures err { IfErr result (AreUnrepaired I.relations I.Dev.state images.old images.new places.entry copies.now sought.now W.contents writer.old writer.new) }
{
    let first = places.hash_first;
    if !may_seek(&sought.source, first) {
        return Err(TreeFault::Unaligned);
    }
    let mut opened = open_all(alloc, images, places, copies)?;
    let sectors = opened.pair.data_image.device.sectors();
    let found = find_repaired_tree(
        alloc,
        sectors,
        &mut opened.pair.hash_image.device,
        first,
        sought,
    )?;
    mend_opened(alloc, images, places, opened, &found, writer)
}

// Repairs the open images, prints what is still lost, and closes them, whatever the result.
fn mend_opened<'a, I: Images, W: Write>(
    alloc: Global,
    images: &mut I,
    places: RepairPlaces<'a>,
    opened: Opened<'a, I::Dev>,
    found: &FoundTree,
    writer: &mut Counted<W>,
) -> Result<(), TreeFault<'a>>
    requires first { places.hash_first ≤ 2 ^ 55 }
    requires allowed { IsAllowed places.write (I.Dev.state opened.pair.data_image.device) (I.Dev.state opened.pair.hash_image.device) }
    ensures ok { OnOk result (IsPairMended I.relations I.Dev.state images.old images.new places.entry opened.entry found.now W.contents writer.old writer.new) }
    ensures err { IfErr result (IsPairUnmended I.relations I.Dev.state images.old images.new places.entry opened.entry found.now W.contents writer.old writer.new) }
{
    let plan = plan_at(places, found);
    let Opened {
        parts,
        pair,
        copies,
    } = opened;
    let image = damaged(pair, copies);
    let (data, hash, _counters, told) = repair_devices(alloc, image, found.whole, &plan, writer);
    give_back(images, places, parts, data, hash);
    told
}

/// Returns what is repaired of the image at these places, whose tree was found.
pub(crate) fn plan_at(places: RepairPlaces<'_>, found: &FoundTree) -> Plan
    ensures { result ≡ plan_at places.entry found.now }
{
    Plan {
        tree: found.tree,
        root: found.root,
        copy_first: places.hash_first,
        write: places.write,
    }
}

/// Returns the image that was opened, and its copies.
pub(crate) fn damaged<D: BlockDev + Drop>(pair: Pair<D>, copies: Copies<D>) -> DamagedImage<D, D, D>
    ensures { result.world ≡ pair_world D.state pair copies }
{
    let Pair {
        data_image,
        hash_image,
    } = pair;
    let Copies {
        data_copies,
        hash_copies,
    } = copies;
    DamagedImage {
        data: data_image.device,
        hash: hash_image.device,
        data_copies,
        hash_copies,
    }
}

/// Closes both parts if the repair may have written to them.
pub fn give_back<I: Images>(
    images: &mut I,
    places: RepairPlaces<'_>,
    parts: Parts<'_>,
    data_dev: I::Dev,
    hash_dev: I::Dev,
)
    ensures { GivesBackBoth I.relations I.Dev.state images.old images.new places.entry parts.entry data_dev hash_dev }
{
    if !places.write {
        return;
    }
    images.close_part(parts.data_path, parts.data_part, data_dev);
    images.close_part(parts.hash_path, parts.hash_part, hash_dev);
}
