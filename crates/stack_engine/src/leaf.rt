//! Reads of leaves.
ghost use Rattle.std.specs.Prelude.{◌≡◌, ◌+◌, ◌/◌, length, map, IfErr, is_ok};
ghost use Rattle.block_device.specs.Call.{DeviceDoes, Read};
ghost use Rattle.stack_lines.specs.declared.source.Source.TheVariants.{Below};
ghost use Rattle.stack_engine.specs.Stacks.{IsSound};
ghost use Rattle.stack_engine.specs.Premises.{FitsIn};
ghost use Rattle.stack_engine.specs.LeafCalls.{IsLeafCall};
ghost use Rattle.stack_engine.specs.ReadSteps.{ReadsLeaf};

use block_device::BlockDev;
use stack_config::{Config, Lower};
use stack_meaning::IoFault;

/// The sectors of a leaf, by one call of its device.
pub(crate) fn read_leaf<D: BlockDev>(
    config: &Config,
    devices: &mut [D],
    leaf: u32,
    first: u64,
    out: &mut [u8],
) -> Result<(), IoFault>
    requires sound { IsSound config.now (map D.state devices.old) }
    requires fits { FitsIn config.now (Below (Lower.Leaf leaf) first) out.old }
    ensures reads { ReadsLeaf config.now leaf first (length out.old / 512) (map D.state devices.old) (map D.state devices.new) result out.new }
    ensures call { IsLeafCall (DeviceDoes D.state D.does) leaf devices.old (Read first out.new (is_ok result)) devices.new }
    ensures err { IfErr result (λ fault. fault ≡ IoFault.Device (leaf + 1)) }
{
    match devices[leaf as usize].read(first, out) {
        Ok(()) => Ok(()),
        Err(_) => Err(IoFault::Device(leaf + 1)),
    }
}
