//! The stack that a stack file makes over the images of its bindings: resolves partitions, opens the images, loads the text, finds
//! a device by name, and closes the images. Also the stack of a disk without a stack file.
#![tactic(auto)]

mod closing;
mod configuration;
mod device;
mod device_source;
mod disk;
mod disk_entries;
mod error_output;
mod leaf_closing;
mod leaves;
mod mapped_file;
mod opening_fault;
mod resolving;
mod source;
mod stack;
mod stack_apart;
mod stack_fault;
mod stack_file;
mod unchecked;
mod warning;
mod whole_file;

pub use closing::{close_stack, sync_and_close};
pub use configuration::{configuration_of, open_configuration};
pub use device::{NamedDevice, find_device, open_device_apart};
pub use device_source::{DeviceSource, open_source, open_source_and_output};
pub use disk::DiskPlace;
pub use disk_entries::push_linear_entry;
pub use error_output::ErrorOutput;
pub use leaves::OpenLeaves;
pub use opening_fault::OpeningFault;
pub use resolving::resolve_bindings;
pub use source::MOST_TEXT;
pub use stack::{load_stack, open_leaves, open_loaded};
pub use stack_fault::StackFault;
pub use stack_file::{OpenStack, StackFile, open_with_input, open_with_source};
pub use unchecked::note_unchecked;
pub use warning::{say_if, say_warning};
