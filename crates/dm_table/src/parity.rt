//! The parity of a `verity` line.
ghost use Rattle.std.specs.Prelude.{◌≡◌, ◌≤◌, IfOk, IfErr};
ghost use Rattle.allocation.specs.Asked.{asked};
ghost use Rattle.dm_table.specs.Names.{most_name};

use crate::table::Name;
use allocation::OutOfMemory;
use std::alloc::Global;

/// Reed-Solomon parity of the data blocks, and of the blocks of the hash device from the tree on. Lost blocks are restored
/// from it.
#[derive(Drop)]
pub struct Parity {
    /// The device of the parity.
    pub device: Name,
    /// The bytes of parity in a codeword of 255 bytes, 2 to 24.
    pub roots: u32,
    /// The number of blocks that are covered: the data blocks, and the hash blocks from the tree on.
    pub blocks: u64,
    /// The offset of the parity on its device, in blocks.
    pub start: u64,
}

impl Parity {
    ghost use Rattle.dm_table.specs.Parity.{IsParityOfGrammar};

    pub(crate) fn try_clone(&self, alloc: Global) -> Result<Parity, OutOfMemory>
        requires { IsParityOfGrammar self.now }
        ensures ok { IfOk result (λ parity. parity ≡ self.now) }
        ensures err { IfErr result (λ e. asked e ≤ most_name) }
    {
        let device = Name::new(alloc, self.device.as_slice())?;
        Ok(Parity {
            device,
            roots: self.roots,
            blocks: self.blocks,
            start: self.start,
        })
    }
}
