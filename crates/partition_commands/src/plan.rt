//! How the stack over a disk's partitions is made.
use command_line::FecFile;
use partition_table::SectorSize;

/// The size of sectors with which the table is looked for first, and whether the devices over data partitions are writable.
#[derive(Clone, Copy)]
pub struct StackPlan {
    pub size: SectorSize,
    pub writable: bool,
}

/// The same of the stack of a verity image, and which partition has its parity, if one is named.
#[derive(Clone, Copy)]
pub struct ImagePlan<'a> {
    pub stack: StackPlan,
    pub fec: Option<FecFile<'a>>,
}
