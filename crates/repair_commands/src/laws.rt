//! Laws of repairs: each function's contract states the law, and a call of the function provides it.
ghost use Rattle.repair_commands.specs.Laws.{ImagesRepairedByParityAreValid, RepairedImagesAreValid};

use block_device::BlockDev;

/// After a repair from copies that succeeded, on steady devices, all blocks are valid under the root hash, whatever the copies
/// returned, or two different inputs have one digest.
pub fn repaired_images_are_valid()
    ensures { RepairedImagesAreValid }
{}

/// After a repair by parity that succeeded, on steady devices, all blocks are valid under the root hash, whatever the copies and
/// the parity device returned, or two different inputs have one digest.
pub fn images_repaired_by_parity_are_valid<D: BlockDev>()
    ensures { ImagesRepairedByParityAreValid D.state }
{}
