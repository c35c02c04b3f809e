//! Images in memory, for tests of what opens images.
#![tactic(auto)]

mod laws;
mod named_images;
mod part;

pub use laws::images_keep_files;
pub use named_images::MemoryImages;
