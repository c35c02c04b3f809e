//! Laws of updates: each function's contract states the law, and a call of the function provides it.
ghost use Rattle.update_commands.specs.Finished.{ReleasesStorePinnedData, UpdatedImagesHoldTheRelease};
ghost use Rattle.update_commands.specs.Laws.{EarlyEndsLeaveNoSuperblock};

use image_files::Images;
use repair_commands::laws::repaired_images_are_valid;
use tree_repair::laws::{other_sectors_stay, valid_images_are_formatted};

/// After an update that cleared the superblock and ended before all blocks were valid, a steady hash device has no superblock.
pub fn early_ends_leave_no_superblock()
    ensures { EarlyEndsLeaveNoSuperblock }
{
    other_sectors_stay()
}

/// After an update, also if a file can't be shortened then, on steady devices all blocks are valid under the root hash of the pin, the
/// superblock is the release's, and both devices are synced, whatever the release's images and the copies returned; or two different
/// inputs have one digest.
pub fn updated_images_hold_the_release<I: Images>()
    ensures { UpdatedImagesHoldTheRelease I.relations I.Dev.state }
{
    repaired_images_are_valid()
}

/// Two devices that hold the release of a pin store any data blocks that have this pin, and the tree over them, or two different
/// inputs have one digest.
pub fn releases_store_pinned_data()
    ensures { ReleasesStorePinnedData }
{
    valid_images_are_formatted()
}
