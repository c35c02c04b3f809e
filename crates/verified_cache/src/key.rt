//! The key of a cached hash block.
/// The identity of a hash block: its mapped device, the line of the device's table, its level in the tree of that
/// line, and its index within the level.
#[derive(Clone, Copy, PartialEq, Eq, Hash, Debug)]
pub struct Key {
    pub device: u32,
    pub line: u32,
    pub level: u32,
    pub block: u64,
}
