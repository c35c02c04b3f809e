//! The two hash images of a command, opened and closed one after the other.
ghost use Rattle.std.specs.Prelude.{◌≡◌, IfOk, IfErr};
ghost use Rattle.image_commands.specs.Places.{behind};
ghost use Rattle.image_files.specs.Places.{image_at};
ghost use Rattle.verity_commands.specs.Openings.{ClosesHashes, FailsToOpenHashes, OpensHashes, hashes_of};

use crate::tree_pair::TreeStarts;
use block_device::BlockDev;
use device_adapters::Window;
use image_commands::HashPlace;
use image_files::{Images, OpenImage, Place, PlacedImage, UnopenedFile, close_place, open_place};
use std::alloc::Global;
use std::marker::Brand;

/// The arguments that name two hash images, and the sectors of 512 bytes of what they name where the hash images begin.
#[derive(Clone, Copy, Debug, PartialEq, Eq)]
pub struct HashPlaces<'a> {
    pub first: HashPlace<'a>,
    pub second: HashPlace<'a>,
}

/// Two hash images, open at their places.
#[derive(Drop)]
pub struct PlacedHashes<'a, D> {
    pub first: PlacedImage<'a, D>,
    pub second: PlacedImage<'a, D>,
}

/// The places of two hash images.
#[derive(Clone, Copy)]
pub(crate) struct BothAt<'a> {
    pub first: Place<'a>,
    pub second: Place<'a>,
}

/// Two hash images, open.
#[derive(Drop)]
pub struct TwoHashes<D> {
    pub first: OpenImage<D>,
    pub second: OpenImage<D>,
}

/// Opens what the first hash image is in for reading, and then what the second is in.
pub(crate) fn open_both<'a, I: Images>(
    alloc: Global,
    images: &mut I,
    places: &HashPlaces<'a>,
) -> Result<PlacedHashes<'a, I::Dev>, UnopenedFile<'a>>
    ensures ok { IfOk result (OpensHashes I.relations I.Dev.state images.old images.new places.now) }
    ensures err { IfErr result (FailsToOpenHashes I.relations I.Dev.state images.old images.new places.now) }
{
    let first = open_place(alloc, images, places.first.path, false)?;
    let second = open_place(alloc, images, places.second.path, false)?;
    Ok(PlacedHashes { first, second })
}

/// The hash images without their places.
pub(crate) fn hashes_of<D>(placed: PlacedHashes<'_, D>) -> TwoHashes<D>
    ensures { result ≡ hashes_of placed.entry }
{
    let PlacedHashes { first, second } = placed;
    TwoHashes {
        first: image_of(first),
        second: image_of(second),
    }
}

fn image_of<D>(placed: PlacedImage<'_, D>) -> OpenImage<D>
    ensures { result ≡ image_at placed.entry }
{
    let PlacedImage {
        device,
        id,
        place: _,
    } = placed;
    OpenImage { device, id }
}

/// Closes what the hash images are in, the first one first.
pub(crate) fn close_both<I: Images>(images: &mut I, places: BothAt<'_>, two: TwoHashes<I::Dev>)
    ensures { ClosesHashes I.relations I.Dev.state images.old images.new places.entry two }
{
    let TwoHashes { first, second } = two;
    let OpenImage { device, id: _ } = first;
    close_place(images, places.first, device);
    let OpenImage { device, id: _ } = second;
    close_place(images, places.second, device);
}

/// Both hash images from their first sectors on.
pub(crate) fn place_both<D: BlockDev>(
    two: TwoHashes<D>,
    starts: &TreeStarts,
) -> TwoHashes<Window<D>>
    ensures first { ⟦<Window<D, Brand> as BlockDev>⟧.state result.first.device ≡ behind (D.state two.first.device) starts.now.first }
    ensures second { ⟦<Window<D, Brand> as BlockDev>⟧.state result.second.device ≡ behind (D.state two.second.device) starts.now.second }
{
    let TwoHashes { first, second } = two;
    TwoHashes {
        first: place(first, starts.first),
        second: place(second, starts.second),
    }
}

fn place<D: BlockDev>(image: OpenImage<D>, first: u64) -> OpenImage<Window<D>>
    ensures { ⟦<Window<D, Brand> as BlockDev>⟧.state result.device ≡ behind (D.state image.device) first }
{
    let OpenImage { device, id } = image;
    OpenImage {
        device: Window::<D, Brand>::behind(device, first),
        id,
    }
}

/// The files of both hash images as wholes.
pub(crate) fn whole_files<D: BlockDev>(two: TwoHashes<Window<D>>) -> TwoHashes<D>
    ensures first { result.first.device ≡ two.first.device.inner }
    ensures second { result.second.device ≡ two.second.device.inner }
{
    let TwoHashes { first, second } = two;
    TwoHashes {
        first: whole_file(first),
        second: whole_file(second),
    }
}

fn whole_file<D: BlockDev>(image: OpenImage<Window<D>>) -> OpenImage<D>
    ensures { result.device ≡ image.device.inner }
{
    let OpenImage { device, id } = image;
    OpenImage {
        device: device.into_inner(),
        id,
    }
}
