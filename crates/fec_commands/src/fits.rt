//! Checks the size of the parity file before anything is written or printed.
ghost use Rattle.std.specs.Prelude.{IfErr, OnOk};
ghost use Rattle.fec_commands.specs.Fitting.{FitsByOptions, IsShortByOptions, IsTooShortByWords, OpensForWords};
ghost use Rattle.fec_commands.specs.Images.{Does};
ghost use Rattle.fec_commands.specs.Layings.{IsRoots};

use crate::fault::FecFault;
use crate::image::{Extent, ThreeImages, data_end, open_three};
use crate::needed::needed_sectors;
use crate::wanted::WantedTree;
use block_device::BlockDev;
use command_line::FecFile;
use device_adapters::Window;
use fec_area::ParityFault;
use image_commands::ImagePlaces;
use image_files::{Images, PlacedImage};
use std::alloc::Global;
use std::marker::Brand;

/// Opens DATA and HASH for reading and FILE for writing, and checks that FILE has enough sectors for the parity of the image
/// that the options make.
pub(crate) fn measure_words<'a, I: Images>(
    alloc: Global,
    images: &mut I,
    places: &ImagePlaces<'a>,
    fec: &FecFile<'a>,
    wanted: &WantedTree,
) -> Result<(), FecFault<'a>>
    requires { IsRoots fec.now.roots }
    ensures ok { OnOk result (Does (OpensForWords wanted.now) I.relations I.Dev.state images.old images.new places.now fec.now) }
    ensures err { IfErr result (Does (IsTooShortByWords wanted.now) I.relations I.Dev.state images.old images.new places.now fec.now) }
{
    let three = open_three(alloc, images, places, fec, true)?;
    let extent = Extent {
        end: data_end(&three, places.hash_first),
        first: places.hash_first,
        roots: fec.roots,
    };
    let ThreeImages {
        data: PlacedImage {
            device: data_dev,
            id: _,
            place: _,
        },
        hash: PlacedImage {
            device: hash_dev,
            id: _,
            place: _,
        },
        parity: PlacedImage {
            device: parity_dev,
            id: _,
            place: _,
        },
    } = three;
    check_room(data_dev, hash_dev, &parity_dev, extent, wanted)?;
    Ok(())
}

// Checks that a device has enough sectors for the parity of the image that options make on two devices: the data before one
// sector, the hash image after another.
fn check_room<D: BlockDev + Drop, H: BlockDev + Drop, P: BlockDev>(
    data_dev: D,
    hash_dev: H,
    parity: &P,
    extent: Extent,
    wanted: &WantedTree,
) -> Result<(), ParityFault>
    requires { IsRoots extent.roots }
    ensures ok { OnOk result (FitsByOptions wanted.now (D.state data_dev) (H.state hash_dev) (P.state parity.now) extent) }
    ensures err { IfErr result (IsShortByOptions wanted.now (D.state data_dev) (H.state hash_dev) (P.state parity.now) extent) }
{
    let before = Window::<D, Brand>::before(data_dev, extent.end);
    let behind = Window::<H, Brand>::behind(hash_dev, extent.first);
    let needed = match needed_sectors(wanted, before.sectors(), behind.sectors(), extent.roots) {
        None => return Ok(()),
        Some(needed) => needed,
    };
    if parity.sectors() < needed {
        return Err(ParityFault::TooSmall { needed });
    }
    Ok(())
}
