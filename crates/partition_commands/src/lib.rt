//! The partitions of an image: printed, and the stacks over them.
#![tactic(auto)]

mod entries;
mod fault;
mod fault_text;
mod image;
mod invoke;
mod kinds;
mod line;
mod loading;
mod named_kinds;
mod names;
mod object;
mod parity;
mod parts;
mod plan;
mod print;
mod refusal;
mod root;
mod root_stack;
mod root_types;
mod signature_types;
mod signatures;
mod usr_types;
mod warnings;

pub use fault::{PartitionsFault, PrintFault};
pub use fault_text::{partitions_status, say_partitions_fault};
pub use image::{object_of_image, partitions_of_image, stack_of_image};
pub use invoke::invoke_partitions;
pub use kinds::kind_name;
pub use named_kinds::kind_named;
pub use names::partition_name;
pub use parity::ImageParity;
pub use plan::{ImagePlan, StackPlan};
pub use print::print_partitions;
pub use refusal::{PartitionRefusal, say_refusal};
pub use root::ImagePartitions;
pub use root_stack::{pinned_stack_of_image, root_stack_of_image};
