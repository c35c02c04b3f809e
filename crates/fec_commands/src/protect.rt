//! Writes the parity of a verity image to a file.
ghost use Rattle.std.specs.Prelude.{◌≡◌, IfErr, OnOk};
ghost use Rattle.fec_area.specs.Layouts.{IsLaidOn};
ghost use Rattle.fec_area.specs.Rounds.{OnlyReadsCovered};
ghost use Rattle.image_commands.specs.Places.{IsStateOf};
ghost use Rattle.fec_commands.specs.Images.{Does};
ghost use Rattle.fec_commands.specs.Layings.{IsRoots};
ghost use Rattle.fec_commands.specs.Protecting.{IsProtectEnd, IsProtectedBy, IsSealed, IsSealingEnd, IsUnprotected, ProtectsImage};

use crate::fault::FecFault;
use crate::image::{Extent, ThreeImages, data_end, lay_out, open_three};
use block_device::{BlockDev, SyncDev};
use command_line::FecFile;
use device_adapters::Window;
use fec_area::{Layout, ParityFault, write_parity};
use image_commands::{ImagePlaces, TreeSource};
use image_files::{Images, PlacedImage, close_place};
use std::alloc::Global;
use std::marker::Brand;

/// Writes the parity of an image in files, whose tree is that of a source, to a file, syncs it, and closes it.
pub(crate) fn protect_image<'a, I: Images>(
    alloc: Global,
    images: &mut I,
    places: &ImagePlaces<'a>,
    fec: &FecFile<'a>,
    source: &TreeSource,
) -> Result<(), FecFault<'a>>
    requires { IsRoots fec.now.roots }
    ensures ok { OnOk result (Does (ProtectsImage source.now) I.relations I.Dev.state images.old images.new places.now fec.now) }
    ensures err { IfErr result (Does (IsProtectEnd source.now) I.relations I.Dev.state images.old images.new places.now fec.now) }
{
    let three = open_three(alloc, images, places, fec, true)?;
    let extent = Extent {
        end: data_end(&three, places.hash_first),
        first: places.hash_first,
        roots: fec.roots,
    };
    let place = three.parity.place;
    let ThreeImages {
        data: PlacedImage {
            device: data_dev,
            id: _,
            place: _,
        },
        hash: PlacedImage {
            device: hash_dev,
            id: _,
            place: _,
        },
        parity: PlacedImage {
            device: mut parity_dev,
            id: _,
            place: _,
        },
    } = three;
    protect_behind(alloc, data_dev, hash_dev, &mut parity_dev, extent, source)?;
    close_place(images, place, parity_dev);
    Ok(())
}

// Writes and syncs the parity of what two devices store: the data before one sector, the hash image after another.
fn protect_behind<'a, D: BlockDev + Drop, H: BlockDev + Drop, P: SyncDev>(
    alloc: Global,
    data_dev: D,
    hash_dev: H,
    parity: &mut P,
    extent: Extent,
    source: &TreeSource,
) -> Result<(), FecFault<'a>>
    requires { IsRoots extent.roots }
    ensures ok { OnOk result (IsProtectedBy D.state H.state P.state data_dev hash_dev parity.old extent source.now parity.new) }
    ensures err { IfErr result (IsUnprotected D.state H.state P.state data_dev hash_dev parity.old extent source.now parity.new) }
{
    let mut before = Window::<D, Brand>::before(data_dev, extent.end);
    let mut behind = Window::<H, Brand>::behind(hash_dev, extent.first);
    let laid = lay_out(&before, &mut behind, extent.first, source, extent.roots)?;
    write_synced(alloc, &laid.layout, &mut before, &mut behind, parity)?;
    Ok(())
}

/// Writes the parity of an image, and syncs it.
///
/// # Errors
///
/// Those of `write_parity`, or `Device` if the sync failed.
pub fn write_synced<D: BlockDev, H: BlockDev, P: SyncDev>(
    alloc: Global,
    layout: &Layout,
    data_dev: &mut D,
    hash_dev: &mut H,
    parity_dev: &mut P,
) -> Result<(), ParityFault>
    requires { IsLaidOn layout.now (D.state data_dev.old) (H.state hash_dev.old) }
    ensures read { OnlyReadsCovered D.state H.state data_dev.old hash_dev.old data_dev.new hash_dev.new }
    ensures ok { OnOk result (IsSealed (IsStateOf D.state) (IsStateOf H.state) layout.now (D.state data_dev.old) (H.state hash_dev.old) (P.state parity_dev.old) (P.state parity_dev.new)) }
    ensures err { IfErr result (IsSealingEnd (IsStateOf D.state) (IsStateOf H.state) layout.now (D.state data_dev.old) (H.state hash_dev.old) (P.state parity_dev.old) (P.state parity_dev.new)) }
{
    write_parity(alloc, layout, data_dev, hash_dev, parity_dev)?;
    parity_dev.sync()?;
    Ok(())
}
