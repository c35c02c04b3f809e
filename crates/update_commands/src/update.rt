//! The command `update`: brings an image in place to the release of a pin.
ghost use Rattle.std.specs.Prelude.{◌≡◌, IfErr, OnOk};
ghost use Rattle.update_commands.specs.Commands.{AreImagesUnupdated, AreImagesUpdated};

use crate::devices::{Target, update_devices};
use crate::growing::{grow_both, shrink_both};
use crate::order::{UpdateOrder, places_of};
use crate::pin_apart::check_pin_apart;
use crate::release::find_release;
use block_device::BlockDev;
use command_line::ImageCopy;
use device_adapters::{Watched, Watchers, watcher_of};
use image_files::Images;
use program_io::Counted;
use repair_commands::{Copies, Opened, Pair, give_back, open_all};
use std::alloc::Global;
use std::io::Write;
use verity_commands::TreeFault;
use verity_format::{Superblock, data_sectors};

/// Runs `update [--no-index] [--progress] [--json] --pin FILE DATA HASH NEWDATA NEWHASH [COPY ..]`: the superblock and the root hash block of NEWHASH
/// are compared with the pin, and DATA and HASH are made as long as the release needs, before anything is written. Then the superblock
/// of HASH is cleared, blocks that differ from the release are sought in the copies, in their order, and the superblock is written
/// if all blocks are valid. It prints what `repair` prints, and the counts, or these alone as a JSON object. Last DATA and HASH are
/// shortened to the release if they are longer.
///
/// # Errors
///
/// - `Open` if the file of the pin is DATA or HASH; if a file can't be opened or made longer, or conflicts with an open one; or if one can't be shortened, after the image was
///   brought to the release and the counts were printed.
/// - `Survey` if there is no superblock of the release, it doesn't fit, a device failed, or memory ran out.
/// - `Unpinned` if the superblock of the release differs from the pin.
/// - `Trees` if the release is too small for its tree, or its root hash block fails verification or can't be read.
/// - `Damaged` if blocks are lost.
/// - `Write` if a line can't be written; the image is brought to the release nevertheless.
pub fn update_images<'a, I: Images, S: Watchers, W: Write>(
    alloc: Global,
    images: &mut I,
    watchers: &S,
    order: &UpdateOrder<'a>,
    copies: &[ImageCopy<'a>],
    writer: &mut Counted<W>,
) -> Result<(), TreeFault<'a>>
    ensures ok { OnOk result (AreImagesUpdated I.relations I.Dev.state images.old images.new order.now copies.now W.contents writer.old writer.new) }
    ensures err { IfErr result (AreImagesUnupdated I.relations I.Dev.state images.old images.new order.now copies.now W.contents writer.old writer.new) }
{
    check_pin_apart(images, order)?;
    let release = find_release(alloc, images, order.release_hash, &order.pin)?;
    let places = places_of(order);
    grow_both(images, places, &release.superblock)?;
    let opened = open_all(alloc, images, places, copies)?;
    let Opened {
        parts,
        pair,
        copies: found,
    } = opened;
    let target = target_of(pair, found, watchers, order.progress, &release.superblock);
    let (data_dev, hash_dev, ended) = update_devices(
        alloc,
        target,
        &release,
        order.no_index,
        order.json,
        writer,
    );
    give_back(images, places, parts, data_dev.inner, hash_dev);
    ended?;
    shrink_both(images, places, &release.superblock)?;
    Ok(())
}

// Returns the open devices. If `progress` is set, it is shown up to which place the data were read.
fn target_of<D: BlockDev + Drop, S: Watchers>(
    pair: Pair<D>,
    copies: Copies<D>,
    watchers: &S,
    progress: bool,
    superblock: &Superblock,
) -> Target<Watched<D, S::Watcher>, D, D>
    ensures data { result.data_dev.inner ≡ pair.data_image.device }
    ensures hash { result.hash_dev ≡ pair.hash_image.device }
    ensures copies { result.copies ≡ copies }
{
    let Pair {
        data_image,
        hash_image,
    } = pair;
    let all = data_sectors(&superblock.shape()) * 512;
    let watcher = watcher_of(watchers, progress);
    Target {
        data_dev: Watched::by_place(data_image.device, watcher, all),
        hash_dev: hash_image.device,
        copies,
    }
}
