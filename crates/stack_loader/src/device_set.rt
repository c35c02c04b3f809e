//! A set of mapped devices.

/// A set of mapped devices of a configuration, by index: one bit for each of 64.
#[derive(Clone, Copy)]
pub struct DeviceSet {
    pub bits: u64,
}

impl DeviceSet {
    ghost use Rattle.std.specs.Prelude.{◌≡◌, ◌==◌, ◌<◌, ◌||◌, false, ℕ};
    ghost use Rattle.stack_rules.specs.Descend.{most_devices};
    ghost use Rattle.stack_loader.specs.DeviceSet.{contains};

    pub(crate) fn empty() -> DeviceSet
        ensures { (d : ℕ) → contains result d ≡ false }
    {
        DeviceSet { bits: 0 }
    }

    pub(crate) fn contains(self, d: usize) -> bool
        requires { d < most_devices }
        ensures { result ≡ contains self d }
    {
        self.bits >> d & 1 == 1
    }

    /// Returns the set with the device added.
    pub(crate) fn with(self, d: usize) -> DeviceSet
        requires { d < most_devices }
        ensures { (e : ℕ) → contains result e ≡ (contains self e || e == d) }
    {
        DeviceSet {
            bits: self.bits | 1 << d,
        }
    }

    /// Returns the union of two sets.
    pub(crate) fn union(self, other: DeviceSet) -> DeviceSet
        ensures { (d : ℕ) → contains result d ≡ (contains self d || contains other d) }
    {
        DeviceSet {
            bits: self.bits | other.bits,
        }
    }
}
