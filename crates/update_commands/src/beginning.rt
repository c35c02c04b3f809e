//! The beginning of an update: the superblock is cleared.
ghost use Rattle.std.specs.Prelude.{IfErr, IsTrue, OnOk};
ghost use Rattle.update_commands.specs.Beginnings.{Begins, IsUnbegun};

use block_device::{BlockDev, SyncDev};
use image_commands::clear_superblock;
use tree_survey::SurveyFault;
use verity_commands::TreeFault;
use verity_format::{Superblock, VerifyFault, data_sectors, image_sectors};

/// Checks that the release fits on the devices, and then clears a superblock of the hash device, and syncs the device. So no
/// superblock precedes a tree that is written in part.
///
/// # Errors
///
/// - `TooSmall` if the data, or the superblock and the tree, don't fit on their device; neither device was accessed.
/// - `Device` if the hash device failed.
pub(crate) fn begin<'a, D: BlockDev, H: SyncDev>(
    data_dev: &D,
    hash_dev: &mut H,
    superblock: &Superblock,
) -> Result<(), TreeFault<'a>>
    requires { IsTrue (H.state hash_dev.old).may_write }
    ensures ok { OnOk result (Begins superblock.now (D.state data_dev.now) (H.state hash_dev.old) (H.state hash_dev.new)) }
    ensures err { IfErr result (IsUnbegun superblock.now (D.state data_dev.now) (H.state hash_dev.old) (H.state hash_dev.new)) }
{
    let shape = superblock.shape();
    let data_needed = data_sectors(&shape);
    let hash_needed = image_sectors(&shape);
    let data_size = data_dev.sectors();
    if data_size < data_needed {
        return Err(TreeFault::Survey(SurveyFault::Image(VerifyFault::TooSmall)));
    }
    let hash_size = hash_dev.sectors();
    if hash_size < hash_needed {
        return Err(TreeFault::Survey(SurveyFault::Image(VerifyFault::TooSmall)));
    }
    match clear_superblock(hash_dev) {
        Ok(()) => Ok(()),
        Err(_) => Err(TreeFault::Survey(SurveyFault::Image(VerifyFault::Device))),
    }
}
