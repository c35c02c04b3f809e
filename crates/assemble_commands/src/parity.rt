//! The parity of a disk's image.
ghost use Rattle.std.specs.Prelude.{◌≡◌, IfErr, IfNone, IfSome, OnOk, true};
ghost use Rattle.fec_area.specs.Layouts.{IsLaidOn, IsLayoutOf};
ghost use Rattle.image_files.specs.Opener.{calls};
ghost use Rattle.assemble_commands.specs.StepEnds.{EndsProtecting, IsUnlaid};
ghost use Rattle.assemble_commands.specs.Steps.{ProtectsParts};

use crate::filling::open_disk_part;
use crate::plan::{DiskPlan, ROOTS};
use block_device::BlockDev;
use device_adapters::{Progress, Watched};
use fec_area::Layout;
use fec_commands::{FecFault, write_synced};
use image_files::{FileUse, Images};
use std::alloc::Global;
use tree_shape::Shape;

/// Writes the parity of the data and of the hash image in its part of the disk under a path to another part, and syncs it, if the disk
/// is to have parity.
///
/// # Errors
///
/// - `Verity` with `Open` if a part can't be opened.
/// - `BlockSizes` if the parity can't be laid out over the two.
/// - `Parity` if it can't be written and synced.
pub(crate) fn protect_parts<'a, I: Images, P: Progress>(
    alloc: Global,
    images: &mut I,
    files: &[FileUse],
    data_dev: &mut Watched<I::Dev, P>,
    path: &'a str,
    plan: &DiskPlan,
) -> Result<(), FecFault<'a>>
    ensures ok { OnOk result (ProtectsParts (calls I.relations I.Dev.state images.old images.new) files.now path.now data_dev.old.inner data_dev.new.inner plan.now) }
    ensures err { IfErr result (EndsProtecting (calls I.relations I.Dev.state images.old images.new) files.now path.now data_dev.old.inner plan.now) }
{
    if !plan.has_parity {
        return Ok(());
    }
    let hash = open_disk_part(images, files, path, plan.parts.hash)?;
    let parity = open_disk_part(images, files, path, plan.parts.parity)?;
    let mut hash_dev = hash.device;
    let mut parity_dev = parity.device;
    let shape = plan.superblock.shape();
    let Some(layout) = laid_out(&shape, data_dev, &hash_dev) else {
        return Err(FecFault::BlockSizes);
    };
    write_synced(alloc, &layout, data_dev, &mut hash_dev, &mut parity_dev)?;
    images.close_part(path, plan.parts.parity, parity_dev);
    Ok(())
}

// The layout of the parity, if it covers blocks of the two devices.
fn laid_out<D: BlockDev, H: BlockDev>(shape: &Shape, data_dev: &D, hash_dev: &H) -> Option<Layout>
    ensures is { IfSome result (IsLayoutOf shape.now (H.state hash_dev.now).size 2) }
    ensures laid { IfSome result (λ layout. IsLaidOn layout (D.state data_dev.now) (H.state hash_dev.now)) }
    ensures none { IfNone result (IsUnlaid shape.now (D.state data_dev.now) (H.state hash_dev.now)) }
{
    let layout = Layout::of(shape, hash_dev.sectors(), ROOTS as usize)?;
    if layout.is_laid_on(data_dev, hash_dev) {
        return Some(layout);
    }
    None
}
