//! The leaves of a stack.
use std::marker::Model;

/// A leaf: a backing device at the bottom of a stack, with the name that tables use for it, its size in sectors of
/// 512 bytes, and whether it is writable.
#[derive(Debug, Drop)]
pub struct Leaf {
    pub name: Vec<u8>,
    pub sectors: u64,
    pub writable: bool,
}

impl Model for Leaf {
    ghost use Rattle.stack_rules.specs.Records.{LeafRecord};

    ghost Value = { LeafRecord };

    ghost view = { λ l. record { name = l.name.items; sectors = l.sectors; writable = l.writable } };
}

impl Leaf {
    ghost use Rattle.std.specs.Prelude.{◌≡◌};

    /// Returns the name that tables use for the leaf.
    pub fn name(&self) -> &[u8]
        ensures { result.now ≡ self.now.name }
    {
        self.name.as_slice()
    }

    /// Returns the size in sectors of 512 bytes.
    pub fn sectors(&self) -> u64
        ensures { result ≡ self.now.sectors }
    {
        self.sectors
    }

    /// Returns whether the leaf is writable.
    pub fn writable(&self) -> bool
        ensures { result ≡ self.now.writable }
    {
        self.writable
    }
}
