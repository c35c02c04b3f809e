//! The door for other programs: devices of 512-byte sectors, verity images, stacks of tables, and the NBD service. What is
//! listed here keeps its name and meaning; each item is documented in the crate that defines it.
#![tactic(auto)]

mod image;
mod service;

pub use block_device::{BlockDev, DeviceFault, FileDev, MemoryDev, OpenFault, SyncDev};
pub use image::{BlockFault, VerityImage};
pub use nbd_server::{Export, ExportFault, ServiceFault, SessionEnd, SessionLog, Tally, serve};
pub use program_io::{Counted, WriteFault};
pub use request_queue::{BytesFault, PieceFault, Queue, Reply, Request, RunFault};
pub use service::serve_device;
pub use stack_config::{Config, DevId, Leaf};
pub use stack_engine::{Fault, IoFault, Stack};
pub use stack_loader::{LoadFault, Refusal, config_over};
pub use table_text::parse_stack;
pub use tree_shape::{Algorithm, Digest, Salt, Shape};
pub use verity_format::{
    FormatFault, FormatOptions, SuperFault, VerifyFault, VerityTree, format_with, image_sectors,
};
