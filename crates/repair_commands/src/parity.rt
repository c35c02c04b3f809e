//! The parity file of an image, and the layout of the parity.
ghost use Rattle.std.specs.Prelude.{◌≤◌, IfErr, IfOk};
ghost use Rattle.repair_commands.specs.Parity.{IsFecOpened, IsFecUnopened, IsUnlaidBy, LaysAcross};

use crate::fault::ParityRepairFault;
use crate::opening::Opened;
use crate::pair::Pair;
use block_device::BlockDev;
use command_line::FecFile;
use fec_area::Layout;
use image_files::{Images, UnopenedFile, open_place_apart, part_use};
use std::alloc::Global;
use tree_shape::Shape;
use tree_survey::SurveyFault;
use verity_commands::TreeFault;
use verity_format::{VerifyFault, data_sectors, tree_sectors};

/// The parity device, and how many bytes of parity a codeword has.
#[derive(Drop)]
pub(crate) struct Parity<D> {
    pub device: D,
    pub roots: u32,
}

/// Opens the parity file for reading. If the repair may write, it mustn't have a sector in common with one of the two images.
pub(crate) fn open_parity<'a, I: Images>(
    alloc: Global,
    images: &mut I,
    write: bool,
    opened: &Opened<'_, I::Dev>,
    fec: &FecFile<'a>,
) -> Result<Parity<I::Dev>, UnopenedFile<'a>>
    ensures ok { IfOk result (IsFecOpened I.relations I.Dev.state images.old images.new write opened.now fec.now) }
    ensures err { IfErr result (IsFecUnopened I.relations I.Dev.state images.old images.new write opened.now fec.now) }
{
    let files = [
        part_use(&opened.pair.data_image, write, opened.parts.data_part),
        part_use(&opened.pair.hash_image, write, opened.parts.hash_part),
    ];
    let image = open_place_apart(alloc, images, &files, fec.path, false)?;
    Ok(Parity {
        device: image.device,
        roots: fec.roots,
    })
}

/// The layout of the parity across an image, and the parity device.
#[derive(Drop)]
pub(crate) struct LaidParity<D> {
    pub layout: Layout,
    pub device: D,
}

/// Returns the layout of the parity across two devices that store the data and a tree of that shape. No device is accessed.
///
/// # Errors
///
/// - `TooSmall` of the image if the data or the tree don't fit on their device.
/// - `BlockSizes` if the data blocks and the hash blocks have different sizes.
/// - `TooSmall` with the needed sectors if the parity device has fewer.
pub(crate) fn lay_out<'a, D: BlockDev, P: BlockDev + Drop>(
    shape: &Shape,
    pair: &Pair<D>,
    parity: Parity<P>,
) -> Result<LaidParity<P>, ParityRepairFault<'a>>
    requires some { 2 ≤ parity.roots }
    requires few { parity.roots ≤ 24 }
    ensures ok { IfOk result (LaysAcross D.state P.state shape.now pair.now parity) }
    ensures err { IfErr result (IsUnlaidBy D.state P.state shape.now pair.now parity) }
{
    let Parity { device, roots } = parity;
    let sectors = pair.hash_image.device.sectors();
    if pair.data_image.device.sectors() < data_sectors(shape) || sectors < tree_sectors(shape) {
        let fault = SurveyFault::Image(VerifyFault::TooSmall);
        return Err(ParityRepairFault::Tree(TreeFault::Survey(fault)));
    }
    let Some(layout) = Layout::of(shape, sectors, roots as usize) else {
        return Err(ParityRepairFault::BlockSizes);
    };
    let needed = layout.parity_sectors();
    if device.sectors() < needed {
        return Err(ParityRepairFault::TooSmall { needed });
    }
    Ok(LaidParity { layout, device })
}
