//! The command `format --no-superblock`: makes a tree alone.
ghost use Rattle.std.specs.Prelude.{◌≡◌, Some, IfErr, IfOk};
ghost use Rattle.program_io.specs.Counted.{Writes};
ghost use Rattle.device_adapters.specs.Parts.{outside_of, part_behind};
ghost use Rattle.image_commands.specs.Places.{IsPartState, IsStateOf};
ghost use Rattle.image_commands.specs.TreeFormats.{FailsToMakeShape, FailsToMakeTree, FailsToMakeTreeAt, IsFinished, IsTreeMade, IsUnfinished, MakesTreeAt, MakesTreeBehind, tree_text};

use crate::cleared_tree::make_cleared;
use crate::fault::ImageFault;
use crate::format::{MadeImage, given_or_drawn};
use crate::offsets::format_fault_from;
use crate::places::{Bounds, data_end, open_placed, overlaps};
use crate::random::Generators;
use crate::superblock_text::{say_blocks, say_root, say_salt};
use crate::tree_place::{tree_of, unnamed};
use crate::watching::{WatchedPlaces, bytes_of_blocks, watch};
use block_device::{BlockDev, SyncDev};
use command_line::ImageOptions;
use device_adapters::{Beside, Part, Watchers, Window, bytes_before};
use image_files::{Images, close_place};
use image_pin::is_aligned;
use program_io::{Counted, WriteFault};
use std::alloc::Global;
use std::io::Write;
use std::marker::{Brand, PhantomData};
use tree_shape::Digest;
use verity_format::{FormatFault, FormatOptions, Superblock};

/// `format --no-superblock [--hash-offset BYTES] [OPTIONS] DATA HASH`: writes the tree alone at that sector of HASH, and returns its
/// root hash and what else is printed of it. Both may be one image; the data are then as many blocks as the options state, before
/// that sector. HASH is synced and closed.
///
/// # Errors
///
/// - `Unaligned` if no hash block begins at that sector; no file was opened.
/// - `Open` if one of the two can't be opened, or they share a sector, and aren't one image with a sector after its first.
/// - `DataOverlapsTree` if both are one image, and the options state no number of blocks.
/// - `Random` if no salt is given and there are no random bytes.
/// - `Format` if the tree isn't made.
pub fn make_tree<'a, I: Images, G: Generators + Watchers>(
    alloc: Global,
    images: &mut I,
    generators: &mut G,
    options: ImageOptions,
    watched: WatchedPlaces<'a>,
) -> Result<MadeImage, ImageFault<'a>>
    ensures ok { IfOk result (MakesTreeAt I.relations I.Dev.state images.old images.new G.gives G.Generator.stream generators.old generators.new options watched.entry) }
    ensures err { IfErr result (FailsToMakeTreeAt I.relations I.Dev.state images.old images.new G.gives G.Generator.stream generators.old generators.new options watched.entry) }
{
    let WatchedPlaces { places, progress } = watched;
    let first = places.hash_first;
    if !is_aligned(first, options.hash_block) {
        return Err(ImageFault::Unaligned);
    }
    let two = open_placed(alloc, images, places)?;
    if overlaps(&two, first, options.blocks) {
        return Err(ImageFault::DataOverlapsTree);
    }
    let end = data_end(&two, first);
    let place = two.hash.place;
    let options = given_or_drawn(generators, unnamed(options))?;
    let all = bytes_of_blocks(&options, bytes_before(&two.data.device, end));
    let (data_dev, hash_dev) = watch(two, generators, progress, all);
    let (hash_dev, made) = make_at(alloc, data_dev, hash_dev, Bounds { end, first }, options);
    match made {
        Ok(made) => {
            close_place(images, place, hash_dev);
            Ok(made)
        }
        Err(fault) => Err(ImageFault::Format(format_fault_from(first, fault))),
    }
}

// Makes the tree at that sector of the hash device over the data before one of the data device, and returns the hash
// device.
fn make_at<D: BlockDev + Drop, H: SyncDev + Drop>(
    alloc: Global,
    data_dev: D,
    hash_dev: H,
    bounds: Bounds,
    options: FormatOptions,
) -> (H, Result<MadeImage, FormatFault>)
    ensures ok { IfOk result.1 (MakesTreeBehind D.state H.state data_dev hash_dev result.0 bounds options) }
    ensures err { IfErr result.1 (FailsToMakeTree D.state H.state data_dev hash_dev result.0 bounds options) }
{
    let mut before = Window::<D, Brand>::before(data_dev, bounds.end);
    match tree_of(options, before.sectors()) {
        Ok(params) => make_behind(alloc, &mut before, hash_dev, bounds.first, params),
        Err(fault) => (hash_dev, Err(fault)),
    }
}

// Makes a tree whose shape is known, on a whole device.
fn make_behind<D: BlockDev, H: SyncDev + Drop>(
    alloc: Global,
    data_dev: &mut D,
    hash_dev: H,
    first: u64,
    params: Superblock,
) -> (H, Result<MadeImage, FormatFault>)
    ensures ok { IfOk result.1 (IsTreeMade (IsStateOf D.state) (IsPartState H.state) params (D.state data_dev.old) (H.state hash_dev) first (H.state result.0)) }
    ensures err { IfErr result.1 (FailsToMakeShape params D.state H.state data_dev.old hash_dev result.0 first) }
{
    make_beside::<D, H, Brand>(alloc, data_dev, hash_dev, first, params)
}

// Makes the tree. The type parameter states what is stored outside of the tree's part.
fn make_beside<D: BlockDev, H: SyncDev + Drop, K: Beside>(
    alloc: Global,
    data_dev: &mut D,
    hash_dev: H,
    first: u64,
    params: Superblock,
) -> (H, Result<MadeImage, FormatFault>)
    requires { K.outside ≡ Some (outside_of (H.state hash_dev).image (part_behind (H.state hash_dev) first)) }
    ensures ok { IfOk result.1 (IsTreeMade (IsStateOf D.state) (IsPartState H.state) params (D.state data_dev.old) (H.state hash_dev) first (H.state result.0)) }
    ensures err { IfErr result.1 (FailsToMakeShape params D.state H.state data_dev.old hash_dev result.0 first) }
{
    let part = Part::behind(&hash_dev, first);
    let mut image = Window::<H, K> {
        inner: hash_dev,
        part,
        beside: PhantomData,
    };
    let root = make_cleared(alloc, data_dev, &mut image, &params);
    let made = finish(&mut image, root, params);
    (image.into_inner(), made)
}

// Syncs a tree that was made.
fn finish<H: SyncDev>(
    hash_dev: &mut H,
    root: Result<Digest, FormatFault>,
    params: Superblock,
) -> Result<MadeImage, FormatFault>
    ensures ok { IfOk result (IsFinished params root (H.state hash_dev.old) (H.state hash_dev.new)) }
    ensures err { IfErr result (IsUnfinished root (H.state hash_dev.old) (H.state hash_dev.new)) }
{
    let root = match root {
        Ok(root) => root,
        Err(fault) => return Err(fault),
    };
    match hash_dev.sync() {
        Ok(()) => Ok(MadeImage {
            root,
            salt: params.salt(),
            uuid: params.uuid(),
            blocks: params.blocks(),
        }),
        Err(_) => Err(FormatFault::Device),
    }
}

/// Prints the root hash, the salt and the number of blocks of a tree that was made, a line each.
///
/// # Errors
///
/// `WriteFault` if the writer failed.
#[tactic(auto, unfolding(crate::specs::TreeFormats::tree_text))]
pub fn say_tree<W: Write>(writer: &mut Counted<W>, made: &MadeImage) -> Result<(), WriteFault>
    ensures { Writes W.contents writer.old writer.new (tree_text made.now) result }
{
    say_root(writer, &made.root)?;
    say_salt(writer, made.salt.bytes())?;
    say_blocks(writer, made.blocks)
}
