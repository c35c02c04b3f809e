//! Reads from devices that may fail at some sectors.
ghost use Rattle.std.specs.Prelude.{length};
ghost use Rattle.block_device.specs.Device.{IsInside};
ghost use Rattle.verity_format.specs.Premises.{IsBlockOn};
ghost use Rattle.tree_survey.specs.Failing.{IsAttempt, IsBlockTried, IsReadOver};

use block_device::BlockDev;

/// Reads the sectors from `first` on into `out`, and returns whether the read succeeded.
pub(crate) fn attempt<D: BlockDev>(device: &mut D, first: u64, out: &mut [u8]) -> bool
    requires { IsInside (D.state device.old) first (length out.old) }
    ensures over { IsReadOver (D.state device.old) (D.state device.new) }
    ensures ends { IsAttempt (D.state device.old) first out.new result (D.state device.new) }
{
    match device.read(first, out) {
        Ok(()) => true,
        Err(_) => false,
    }
}

/// Reads the block at `index`, in units of the block's size, and returns whether the read succeeded.
pub(crate) fn read_block<D: BlockDev>(device: &mut D, index: u64, block: &mut [u8]) -> bool
    requires { IsBlockOn (D.state device.old) (length block.old) index }
    ensures over { IsReadOver (D.state device.old) (D.state device.new) }
    ensures ends { IsBlockTried (D.state device.old) (length block.old) index block.new result (D.state device.new) }
{
    let sectors = (block.len() / 512) as u64;
    attempt(device, index * sectors, block)
}
