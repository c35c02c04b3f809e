//! Whether an image may be made of two devices.
ghost use Rattle.std.specs.Prelude.{IfErr, OnOk};
ghost use Rattle.image_commands.specs.Refusals.{IsAllowed, IsRefusedAs};

use crate::tree_place::tree_of;
use block_device::BlockDev;
use verity_format::{FormatFault, FormatOptions, check_room, image_sectors};

/// Whether an image may be made of the devices: `format_with` refuses it for the same reasons.
pub(crate) fn check_format<D: BlockDev, H: BlockDev>(
    data_dev: &D,
    hash_dev: &H,
    options: &FormatOptions,
) -> Result<(), FormatFault>
    ensures ok { OnOk result (IsAllowed options.now (D.state data_dev.now) (H.state hash_dev.now)) }
    ensures err { IfErr result (IsRefusedAs options.now (D.state data_dev.now) (H.state hash_dev.now)) }
{
    let params = tree_of(*options, data_dev.sectors())?;
    let shape = params.shape();
    check_room(data_dev, hash_dev, &shape, image_sectors(&shape))
}
