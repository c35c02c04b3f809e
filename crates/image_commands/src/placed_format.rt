//! The command `format`.
ghost use Rattle.std.specs.Prelude.{◌≡◌, Some, IfErr, IfOk};
ghost use Rattle.std.specs.Option.{ForSome};
ghost use Rattle.device_adapters.specs.Parts.{StandOutside, outside_of, part_behind};
ghost use Rattle.image_commands.specs.PlacedFormats.{FailsToMakeAt, IsUnmadeAt, MakesImageAt, MakesImagesAt};

use crate::fault::ImageFault;
use crate::format::{MadeImage, given_or_drawn, make};
use crate::offsets::format_fault_from;
use crate::places::{Bounds, data_end, open_placed, overlaps};
use crate::random::Generators;
use crate::watching::{WatchedPlaces, bytes_of_blocks, watch};
use block_device::{BlockDev, SyncDev};
use command_line::ImageOptions;
use device_adapters::{Beside, Watchers, Window, bytes_before};
use image_files::{Images, close_place};
use image_pin::is_aligned;
use std::alloc::Global;
use std::marker::Brand;
use verity_format::{FormatFault, FormatOptions};

/// `format [--hash-offset BYTES] [OPTIONS] DATA HASH`: makes the hash image that begins at that sector of HASH, and returns its
/// root hash and what else is printed of it. Both may be one image if that sector isn't the first; the data are then as many blocks
/// as the options state, before that sector. The hash image is synced and closed.
///
/// # Errors
///
/// - `Unaligned` if no hash block begins at that sector; no file was opened.
/// - `Open` if one of the two can't be opened, or they share a sector, and aren't one image with a sector after its first.
/// - `DataOverlapsTree` if both are one image, and the options state no number of blocks.
/// - `Random` if a salt or an identifier is missing and there are no random bytes.
/// - `Format` if the image isn't made.
pub fn make_placed<'a, I: Images, G: Generators + Watchers>(
    alloc: Global,
    images: &mut I,
    generators: &mut G,
    options: ImageOptions,
    watched: WatchedPlaces<'a>,
) -> Result<MadeImage, ImageFault<'a>>
    ensures ok { IfOk result (MakesImagesAt I.relations I.Dev.state images.old images.new G.gives G.Generator.stream generators.old generators.new options watched.entry) }
    ensures err { IfErr result (FailsToMakeAt I.relations I.Dev.state images.old images.new G.gives G.Generator.stream generators.old generators.new options watched.entry) }
{
    let WatchedPlaces { places, progress } = watched;
    let first = places.hash_first;
    if !is_aligned(first, options.hash_block) {
        return Err(ImageFault::Unaligned);
    }
    let two = open_placed(alloc, images, places)?;
    if overlaps(&two, first, options.blocks) {
        return Err(ImageFault::DataOverlapsTree);
    }
    let end = data_end(&two, first);
    let place = two.hash.place;
    let options = given_or_drawn(generators, options)?;
    let all = bytes_of_blocks(&options, bytes_before(&two.data.device, end));
    let (data_dev, hash_dev) = watch(two, generators, progress, all);
    let (hash_dev, made) = make_behind(alloc, data_dev, hash_dev, Bounds { end, first }, options);
    match made {
        Ok(made) => {
            close_place(images, place, hash_dev);
            Ok(made)
        }
        Err(fault) => Err(ImageFault::Format(format_fault_from(first, fault))),
    }
}

// Formats the hash device from one of its sectors on over the data before one of the data device, and returns the hash
// device.
fn make_behind<D: BlockDev + Drop, H: SyncDev + Drop>(
    alloc: Global,
    data_dev: D,
    hash_dev: H,
    bounds: Bounds,
    options: FormatOptions,
) -> (H, Result<MadeImage, FormatFault>)
    ensures ok { IfOk result.1 (MakesImageAt D.state H.state data_dev hash_dev result.0 bounds options) }
    ensures err { IfErr result.1 (IsUnmadeAt D.state H.state data_dev hash_dev result.0 bounds options) }
{
    make_beside::<D, H, Brand>(alloc, data_dev, hash_dev, bounds, options)
}

// Makes the image. The type parameter states what is stored before the hash image.
fn make_beside<D: BlockDev + Drop, H: SyncDev + Drop, K: Beside>(
    alloc: Global,
    data_dev: D,
    hash_dev: H,
    bounds: Bounds,
    options: FormatOptions,
) -> (H, Result<MadeImage, FormatFault>)
    requires { K.outside ≡ Some (outside_of (H.state hash_dev).image (part_behind (H.state hash_dev) bounds.first)) }
    ensures ok { IfOk result.1 (MakesImageAt D.state H.state data_dev hash_dev result.0 bounds options) }
    ensures err { IfErr result.1 (IsUnmadeAt D.state H.state data_dev hash_dev result.0 bounds options) }
{
    let mut before = Window::<D, Brand>::before(data_dev, bounds.end);
    let mut behind = Window::<H, K>::behind(hash_dev, bounds.first);
    let made = make(alloc, &mut before, &mut behind, options);
    (behind.into_inner(), made)
}
