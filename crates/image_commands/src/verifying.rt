//! The command `verify`: compares the tree of a source with a data image.
ghost use Rattle.std.specs.Prelude.{IfErr, OnOk};
ghost use Rattle.image_commands.specs.Endings.{IsQuiet};
ghost use Rattle.image_commands.specs.Verifying.{FailsToMatch, FailsToVerify, MatchesBehind, VerifiesImages};

use crate::comparing::{compare, place_parts};
use crate::fault::ImageFault;
use crate::paths::{ImagePaths, open_two};
use crate::places::{Bounds, ImagePlaces, data_end, tree_start};
use crate::tree_source::{SoughtTree, bytes_to_read, may_seek, seek_tree};
use crate::watching::{WatchedPlaces, watch};
use block_device::BlockDev;
use device_adapters::{Watchers, bytes_before};
use image_files::Images;
use program_io::Counted;
use std::alloc::Global;
use std::io::Write;

/// `verify [--hash-offset BYTES] DATA HASH ROOT`, also with `--no-superblock`: prints `matches` if the hash image that begins at that
/// sector of HASH has the tree of the data under this root. If both are one image and that sector isn't the first, the data are what
/// lies before it. A superblock is read once.
///
/// # Errors
///
/// - `Unaligned` if no hash block begins at that sector; if options state the tree, no file was opened.
/// - `Open` if one of the two can't be opened.
/// - `Unpinned` if the superblock differs from the pin, `Format` if the options state no valid shape.
/// - `Verify` if there is no superblock, a device is too small or failed, or an allocation was refused.
/// - `Differs` if the trees were compared and differ. Its block counts from the beginning of HASH.
/// - `Write` if the line can't be written.
#[tactic(auto, using(crate::proofs::lemmas::EndingLemmas::quiet))]
pub fn verify_images<'a, I: Images, S: Watchers, W: Write>(
    alloc: Global,
    images: &mut I,
    watchers: &S,
    watched: WatchedPlaces<'a>,
    sought: &SoughtTree,
    writer: &mut Counted<W>,
) -> Result<(), ImageFault<'a>>
    ensures ok { OnOk result (VerifiesImages I.relations I.Dev.state images.old images.new W.contents writer.old writer.new watched.entry sought.now) }
    ensures err { IfErr result (FailsToVerify I.relations I.Dev.state images.old images.new writer.new watched.entry sought.now) }
    ensures quiet { IfErr result (λ fault. IsQuiet fault (W.contents writer.old.inner) (W.contents writer.new.inner)) }
{
    let WatchedPlaces { places, progress } = watched;
    let ImagePlaces {
        data,
        hash,
        hash_first: first,
    } = places;
    if !may_seek(&sought.source, first) {
        return Err(ImageFault::Unaligned);
    }
    let two = open_two(alloc, images, ImagePaths { data, hash }, false)?;
    let end = data_end(&two, first);
    let all = bytes_to_read(&sought.source, bytes_before(&two.data.device, end));
    let devices = watch(two, watchers, progress, all);
    let bounds = Bounds { end, first };
    compare_behind(alloc, devices, bounds, sought, writer)
}

// Compares the data device before one of its sectors with the hash device from one of its sectors on.
#[tactic(auto, using(crate::proofs::lemmas::EndingLemmas::quiet))]
fn compare_behind<'a, D: BlockDev + Drop, H: BlockDev + Drop, W: Write>(
    alloc: Global,
    devices: (D, H),
    bounds: Bounds,
    sought: &SoughtTree,
    writer: &mut Counted<W>,
) -> Result<(), ImageFault<'a>>
    ensures ok { OnOk result (MatchesBehind D.state H.state devices W.contents writer.old writer.new bounds sought.now) }
    ensures err { IfErr result (FailsToMatch D.state H.state devices writer.new bounds sought.now) }
    ensures quiet { IfErr result (λ fault. IsQuiet fault (W.contents writer.old.inner) (W.contents writer.new.inner)) }
{
    let (data_dev, hash_dev) = devices;
    let mut two = place_parts(data_dev, hash_dev, bounds);
    let sectors = two.data.sectors();
    let tree = seek_tree(&sought.source, sectors, &mut two.hash, bounds.first)?;
    let size = tree.shape.hash_block();
    let ahead = tree_start(bounds.first, size, 0);
    compare(alloc, &mut two, &tree, ahead, &sought.root, writer)
}
