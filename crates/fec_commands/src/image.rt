//! A verity image and its parity file, open, and the layout of the parity.
ghost use Rattle.std.specs.Prelude.{◌≡◌, nat_lt, IfErr, IfOk};
ghost use Rattle.image_files.specs.Opener.{IsFresh};
ghost use Rattle.fec_area.specs.Layouts.{IsLayout};
ghost use Rattle.fec_commands.specs.Images.{Does, OpensThree, RefusesThree, end_of_data, three_data_end};
ghost use Rattle.fec_commands.specs.Layings.{IsLaidOut, IsNotLaidOut, IsRoots, is_roots};

use crate::fault::FecFault;
use block_device::BlockDev;
use command_line::FecFile;
use fec_area::Layout;
use image_commands::{ImageFault, ImagePlaces, TreeSource, seek_tree};
use image_files::{
    Images, PlacedImage, UnopenedFile, is_one_image, open_place, open_place_apart, place_use,
};
use std::alloc::Global;
use verity_commands::VerityFault;
use verity_format::{VerifyFault, VerityTree, data_sectors};

/// A data image, its hash image and their parity file, open.
#[derive(Drop)]
pub(crate) struct ThreeImages<'a, D> {
    pub data: PlacedImage<'a, D>,
    pub hash: PlacedImage<'a, D>,
    pub parity: PlacedImage<'a, D>,
}

/// A tree, and the layout of the parity of its image.
#[derive(Clone, Copy)]
pub(crate) struct LaidTree {
    pub tree: VerityTree,
    pub layout: Layout,
}

/// Where the data end and the hash image begins in their files, in sectors of 512 bytes, and how many bytes of parity a
/// codeword has.
#[derive(Clone, Copy)]
pub(crate) struct Extent {
    pub end: u64,
    pub first: u64,
    pub roots: u32,
}

/// Returns whether a codeword may have so many bytes of parity: 2 to 24.
pub(crate) fn is_roots(roots: u32) -> bool
    ensures { result ≡ is_roots roots }
{
    roots >= 2 && roots <= 24
}

/// Opens the data image for reading, the hash image for reading, and then the parity file; if `write` is set, the latter for
/// writing, and it must be neither of the images.
pub(crate) fn open_three<'a, I: Images>(
    alloc: Global,
    images: &mut I,
    places: &ImagePlaces<'a>,
    fec: &FecFile<'a>,
    write: bool,
) -> Result<ThreeImages<'a, I::Dev>, UnopenedFile<'a>>
    ensures ok { IfOk result (Does OpensThree I.relations I.Dev.state images.old images.new places.now fec.now write) }
    ensures fresh { IfOk result (λ three. IsFresh (I.Dev.state three.parity.device) write) }
    ensures err { IfErr result (RefusesThree I.relations I.Dev.state images.old images.new places.now fec.now write) }
{
    let data = open_place(alloc, images, places.data, false)?;
    let hash = open_place(alloc, images, places.hash, false)?;
    let files = [place_use(&data, false), place_use(&hash, false)];
    let parity = open_place_apart(alloc, images, &files, fec.path, write)?;
    Ok(ThreeImages { data, hash, parity })
}

/// Returns the sector where the data end: the hash image's first sector if both are one image, otherwise the end of the data
/// image.
pub(crate) fn data_end<D>(three: &ThreeImages<'_, D>, first: u64) -> u64
    ensures { result ≡ three_data_end three.now first }
{
    end_of_data(&three.data, &three.hash, first)
}

/// Returns the sector where the data end, by the places of DATA and HASH.
pub(crate) fn end_of_data<D>(
    data: &PlacedImage<'_, D>,
    hash: &PlacedImage<'_, D>,
    first: u64,
) -> u64
    ensures { result ≡ end_of_data «data».now hash.now first }
{
    if first > 0 && is_one_image(data, hash) {
        return first;
    }
    u64::MAX
}

/// Returns the tree of that source and the layout of its image's parity, with so many bytes of parity in a codeword.
pub(crate) fn lay_out<'a, D: BlockDev, H: BlockDev>(
    data_dev: &D,
    hash_dev: &mut H,
    first: u64,
    source: &TreeSource,
    roots: u32,
) -> Result<LaidTree, FecFault<'a>>
    requires { IsRoots roots }
    ensures ok { IfOk result (IsLaidOut D.state H.state data_dev.now hash_dev.old first source.now roots hash_dev.new) }
    ensures err { IfErr result (IsNotLaidOut D.state H.state data_dev.now hash_dev.old first source.now hash_dev.new) }
{
    let sectors = data_dev.sectors();
    let tree = seek_tree(source, sectors, hash_dev, first)?;
    if sectors < data_sectors(&tree.shape) {
        return Err(FecFault::Verity(VerityFault::Image(ImageFault::Verify(VerifyFault::TooSmall))));
    }
    match Layout::of(&tree.shape, hash_dev.sectors(), roots as usize) {
        Some(layout) => Ok(LaidTree { tree, layout }),
        None => Err(FecFault::BlockSizes),
    }
}
