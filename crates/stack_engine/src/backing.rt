//! The devices and the cache beneath the lines of a configuration.
use block_device::BlockDev;
use stack_lines::Cache;
use std::alloc::Global;

/// The devices of the leaves in order, the blocks that are kept, how many blocks were restored, and the allocator, which
/// reads and writes use.
#[derive(Drop)]
pub(crate) struct Backing<D: BlockDev> {
    pub(crate) alloc: Global,
    pub(crate) devices: Vec<D>,
    pub(crate) cache: Cache,
    pub(crate) restored: u64,
}
