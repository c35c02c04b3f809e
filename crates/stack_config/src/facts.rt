//! Values that are computed once for a configuration.
use crate::keys::DeviceKeys;
use crate::zero_digests::ZeroDigests;
use stack_rules::DeviceLowers;
use std::alloc::Global;

/// The values of a device: its depth, its costs in leaf sectors, the leaves and devices that its lines name, the keys
/// of its `crypt` lines, and the digests of blocks of zeros for its `verity` lines.
#[derive(Drop)]
pub struct DeviceFacts {
    pub depth: u64,
    pub read_cost: u64,
    pub write_cost: u64,
    pub lowers: DeviceLowers,
    pub keys: DeviceKeys,
    pub zero_digests: ZeroDigests,
}

/// The values of each device, by index.
#[derive(Drop)]
pub struct Facts {
    pub devices: Vec<DeviceFacts>,
}

impl Facts {
    ghost use Rattle.std.specs.Prelude.{List, []};
    ghost use Rattle.stack_rules.specs.Records.{LeafRecord};
    ghost use Rattle.stack_config.specs.Facts.{AreFacts, HaveDevice, AreWithout};

    /// Returns the values of a configuration without mapped devices.
    pub(crate) fn none(alloc: Global) -> Facts
        ensures { (leaves : List LeafRecord) → AreFacts (record { leaves = leaves; devices = [] }) result }
    {
        Facts {
            devices: Vec::new(alloc),
        }
    }

    /// Removes the device with index `place`, and adjusts the values of the others.
    pub fn remove(&mut self, place: usize)
        requires { HaveDevice self.old place }
        ensures { AreWithout place self.old self.new }
    {
        drop(self.devices.remove(place));
        for device in self.devices.as_mut_slice() {
            device.lowers.remove(place);
        }
    }
}
