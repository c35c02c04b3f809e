//! The arguments of an `unstriped` line.
ghost use Rattle.std.specs.Prelude.{◌≡◌, ◌≤◌, IfOk, IfErr};
ghost use Rattle.allocation.specs.Asked.{asked};
ghost use Rattle.dm_table.specs.Names.{most_name};

use crate::table::Base;
use allocation::OutOfMemory;
use std::alloc::Global;

/// One stripe of a striped device: its chunks one after another.
#[derive(Drop)]
pub struct Unstriped {
    /// The number of stripes, at least 1.
    pub stripes: u32,
    /// The chunk size in sectors, at least 1.
    pub chunk: u32,
    /// The index of the stripe, from 0 on.
    pub stripe: u32,
    /// The striped device and its first sector.
    pub base: Base,
}

impl Unstriped {
    ghost use Rattle.dm_table.specs.Unstriped.{IsUnstripedOfGrammar};

    pub(crate) fn try_clone(&self, alloc: Global) -> Result<Unstriped, OutOfMemory>
        requires { IsUnstripedOfGrammar self.now }
        ensures ok { IfOk result (λ unstriped. unstriped ≡ self.now) }
        ensures err { IfErr result (λ e. asked e ≤ most_name) }
    {
        let base = self.base.try_clone(alloc)?;
        Ok(Unstriped {
            stripes: self.stripes,
            chunk: self.chunk,
            stripe: self.stripe,
            base,
        })
    }
}
