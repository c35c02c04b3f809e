//! The chains that a read finds on its path through a stack.
use hash_tree::Chain;
use std::marker::Model;

/// The chain of a data block, and the `verity` line that it belongs to: its device, and its line in the device's
/// table, numbered from 0.
#[derive(Drop)]
pub struct Found {
    pub device: u32,
    pub line: u32,
    pub chain: Chain,
}

impl Model for Found {
    ghost use Rattle.stack_meaning.specs.Found.{FoundRecord};

    ghost Value = { FoundRecord };

    ghost view = { λ f. record { device = f.device; line = f.line; chain = f.chain } };
}
