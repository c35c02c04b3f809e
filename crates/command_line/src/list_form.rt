//! How the devices of a stack are printed.

/// How the devices of a stack are printed.
#[derive(Clone, Copy, Debug, PartialEq, Eq)]
pub enum ListForm {
    /// A line for each device.
    Lines,
    /// A tree of the devices over their leaves.
    Tree,
    /// One JSON object.
    Object,
}
