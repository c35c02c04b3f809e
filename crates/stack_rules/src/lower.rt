//! The leaves and mapped devices that a line names.

/// The index of a mapped device in its configuration, from 0 on.
#[derive(Clone, Copy, Debug, PartialEq, Eq)]
pub struct DevId(pub u32);

/// A leaf, by its index from 0 on, or a mapped device.
#[derive(Clone, Copy, Debug, PartialEq, Eq)]
pub enum Lower {
    Leaf(u32),
    Device(DevId),
}

impl Lower {
    ghost use Rattle.std.specs.Prelude.{◌≡◌};
    ghost use Rattle.stack_rules.specs.Cycles.{is_mapped};
    ghost use Rattle.stack_rules.specs.Removal.{lower_after};

    /// Returns whether it is the mapped device with index `place`.
    pub(crate) fn is_mapped(self, place: usize) -> bool
        ensures { result ≡ is_mapped place self }
    {
        match self {
            Lower::Leaf(_) => false,
            Lower::Device(d) => d.0 as usize == place,
        }
    }

    /// Returns the leaf or device after the device with index `place` is removed: later devices move up by one.
    pub(crate) fn after_removal(self, place: usize) -> Lower
        ensures { result ≡ lower_after place self }
    {
        match self {
            Lower::Leaf(i) => Lower::Leaf(i),
            Lower::Device(d) => {
                if place < d.0 as usize {
                    Lower::Device(DevId(d.0 - 1))
                } else {
                    Lower::Device(d)
                }
            }
        }
    }
}
