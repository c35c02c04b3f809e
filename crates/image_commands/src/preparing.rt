//! What `format --grow` makes sure of before it makes a file.
ghost use Rattle.std.specs.Prelude.{◌≡◌, IfErr, IfOk, OnOk};
ghost use Rattle.image_commands.specs.Preparing.{FailsToPrepare, HasRoom, IsNoPlacedTree, PreparesImage, said_options};

use crate::fault::ImageFault;
use crate::format::given_or_drawn;
use crate::places::ImagePlaces;
use crate::random::Generators;
use crate::tree_place::tree_of;
use block_device::BlockDev;
use command_line::ImageOptions;
use image_files::{Images, open_place};
use image_pin::is_aligned;
use std::alloc::Global;
use verity_format::{FormatFault, FormatOptions, data_sectors};

/// Returns the options with a salt and an identifier, given or drawn. It checks what `format --grow` checks before it makes a file.
///
/// # Errors
///
/// - `Unaligned` if no hash block begins at the sector of the hash image.
/// - `Random` if a salt or an identifier is missing and there are no random bytes.
/// - `Open` if the data image can't be opened.
/// - `Format` if the options state no valid shape, or the data image has fewer blocks than they state.
pub fn prepare_image<'a, I: Images, G: Generators>(
    alloc: Global,
    images: &mut I,
    generators: &mut G,
    options: ImageOptions,
    places: ImagePlaces<'a>,
) -> Result<ImageOptions, ImageFault<'a>>
    ensures ok { IfOk result (PreparesImage I.relations I.Dev.state images.old images.new G.gives G.Generator.stream generators.old generators.new options places.entry) }
    ensures err { IfErr result (FailsToPrepare I.relations I.Dev.state images.old images.new G.gives G.Generator.stream generators.old generators.new options places.entry) }
{
    if !is_aligned(places.hash_first, options.hash_block) {
        return Err(ImageFault::Unaligned);
    }
    let given = given_or_drawn(generators, options)?;
    let data = open_place(alloc, images, places.data, false)?;
    check_data(&data.device, &given)?;
    Ok(said_options(&given))
}

// Whether the device has the data blocks of an image.
fn check_data<D: BlockDev>(data_dev: &D, options: &FormatOptions) -> Result<(), FormatFault>
    ensures ok { OnOk result (HasRoom options.now (D.state data_dev.now)) }
    ensures err { IfErr result (IsNoPlacedTree options.now (D.state data_dev.now)) }
{
    let sectors = data_dev.sectors();
    let params = tree_of(*options, sectors)?;
    if sectors < data_sectors(&params.shape()) {
        return Err(FormatFault::DataTooSmall);
    }
    Ok(())
}

// The given options, with none left to be drawn.
fn said_options(given: &FormatOptions) -> ImageOptions
    ensures { result ≡ said_options given.now }
{
    ImageOptions {
        data_block: given.data_block,
        hash_block: given.hash_block,
        blocks: given.blocks,
        salt: Some(given.salt),
        uuid: Some(given.uuid),
    }
}
