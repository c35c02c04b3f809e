//! The data block that is kept.
ghost use Rattle.std.specs.Prelude.{IfOk, IfSome, IsTrue, OnErr};
ghost use Rattle.stack_lines.specs.Caches.{IsLastUncopied};
ghost use Rattle.stack_engine.specs.ReadSteps.{IsKeptData};

use crate::path::WantedData;
use allocation::OutOfMemory;
use stack_lines::Cache;
use stack_lines::tree::{Tree, data_key};
use std::alloc::Global;

/// Returns a copy of the data block that is kept, if it is that one and a part of it alone is read. A read of a whole block calls
/// its device.
///
/// # Errors
///
/// `OutOfMemory` if memory for the copy was refused.
pub(crate) fn kept_data(
    alloc: Global,
    cache: &Cache,
    tree: &Tree,
    wanted: &WantedData,
) -> Result<Option<Vec<u8>>, OutOfMemory>
    ensures answer { IfOk result (λ kept. IfSome kept (λ block. IsKeptData tree.now wanted.now cache.now.last block.items)) }
    ensures err { OnErr result (IsLastUncopied cache.now.last) }
{
    if !wanted.part {
        return Ok(None);
    }
    cache.copy_of_last(alloc, data_key(tree, wanted.block), &wanted.digest)
}
