//! The leaves beneath a leaf or device.

/// Some of the leaves of a configuration, by their places: a bit for each of 64. And whether it is known that no sector of
/// what is stacked on them meets a fault of a line.
#[derive(Clone, Copy)]
pub(crate) struct LeafSet {
    pub(crate) bits: u64,
    pub(crate) clear: bool,
}

impl LeafSet {
    ghost use Rattle.std.specs.Prelude.{◌≡◌, ◌==◌, ◌<◌, ◌||◌, ◌&&◌, not, false, ℕ};
    ghost use Rattle.stack_rules.specs.Rules.{most_leaves};
    ghost use Rattle.stack_lines.specs.Standing.{has_leaf};

    pub(crate) fn empty(clear: bool) -> LeafSet
        ensures leaves { (i : ℕ) → has_leaf result i ≡ false }
        ensures clear { result.clear ≡ clear }
    {
        LeafSet { bits: 0, clear }
    }

    pub(crate) fn contains(self, leaf: u32) -> bool
        requires { leaf < most_leaves }
        ensures { result ≡ has_leaf self leaf }
    {
        self.bits >> leaf & 1 == 1
    }

    /// This set and the leaf.
    pub(crate) fn with(self, leaf: u32) -> LeafSet
        requires { leaf < most_leaves }
        ensures leaves { (i : ℕ) → has_leaf result i ≡ (has_leaf self i || i == leaf) }
        ensures clear { result.clear ≡ self.clear }
    {
        LeafSet {
            bits: self.bits | 1 << leaf,
            clear: self.clear,
        }
    }

    /// This set but for the leaf.
    pub(crate) fn without(self, leaf: u32) -> LeafSet
        requires { leaf < most_leaves }
        ensures { (i : ℕ) → i < most_leaves → has_leaf result i ≡ (has_leaf self i && not (i == leaf)) }
    {
        LeafSet {
            bits: self.bits & !(1 << leaf),
            clear: self.clear,
        }
    }

    /// The leaves that are in this set or in the other.
    pub(crate) fn union(self, other: LeafSet) -> LeafSet
        ensures leaves { (i : ℕ) → has_leaf result i ≡ (has_leaf self i || has_leaf other i) }
        ensures clear { result.clear ≡ (self.clear && other.clear) }
    {
        LeafSet {
            bits: self.bits | other.bits,
            clear: self.clear && other.clear,
        }
    }
}
