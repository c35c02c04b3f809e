//! Reads hash blocks down to a data block. The fault names a block that fails verification.
ghost use Rattle.std.specs.Prelude.{◌≡◌, OnOk, IfErr};
ghost use Rattle.verity_format.specs.Blocks.{IsOnlyRead};
ghost use Rattle.tree_path.specs.Steps.{CanDescend};
ghost use Rattle.tree_difference.specs.Causes.{FailsToReadDown};
ghost use Rattle.tree_difference.specs.Walks.{ReadsDown};

use crate::fault::{DifferenceFault, Which};
use block_device::BlockDev;
use tree_path::TreePath;
use verity_format::VerifyFault;

/// Reads and verifies the hash blocks of the levels from `from - 1` down to `to` on the path to a data block.
pub(crate) fn read_down<H: BlockDev>(
    path: &mut TreePath,
    device: &mut H,
    which: Which,
    index: u64,
    from: u32,
    to: u32,
) -> Result<(), DifferenceFault>
    requires { CanDescend path.old (H.state device.old) index from to }
    ensures read { IsOnlyRead (H.state device.old) (H.state device.new) }
    ensures ok { OnOk result (ReadsDown H.state path.old path.new device.old device.new index from to) }
    ensures err { IfErr result (FailsToReadDown H.state path.old path.new device.old device.new index from which to) }
{
    match path.descend(device, index, from, to) {
        Ok(None) => Ok(()),
        Ok(Some(level)) => Err(DifferenceFault::Hash(
            which,
            level,
            path.block_number(level, index),
        )),
        Err(_) => Err(DifferenceFault::Image(which, VerifyFault::Device)),
    }
}
