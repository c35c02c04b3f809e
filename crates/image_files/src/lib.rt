//! The images and texts that the commands of a program open, which of them are one file, and texts that are replaced as a whole.
#![tactic(auto)]

mod calls;
mod draft;
mod file_images;
mod file_locks;
mod file_texts;
mod file_use;
mod growing;
mod images;
pub mod laws;
mod memory_text;
mod named_parts;
mod one_file;
mod one_place;
mod opening;
mod partitions;
mod parts;
mod placed_image;
mod places;
mod seal;
mod system_calls;
mod texts;

pub use calls::{CallFault, CreateFault, FileCalls};
pub use file_images::FileImages;
pub use file_texts::FileTexts;
pub use file_use::{FileUse, has_clash, image_use, is_clash, no_use, part_use};
pub use images::{FileText, Images, OpenImage};
pub use memory_text::MemoryText;
pub use named_parts::partition_under;
pub use one_file::{is_block_device, is_one_file};
pub use opening::{UnopenedFile, is_one_place, open_apart, open_image, read_text};
pub use partitions::{only_named, part_of};
pub use parts::{PartFault, UnopenedPart, device_part, open_part};
pub use placed_image::{Place, PlacedImage, has_own_size, is_one_image, place_use};
pub use places::{
    close_place, find_place, grow_file, grow_place, is_missing, open_place, open_place_apart,
    shrink_place,
};
pub use system_calls::SystemCalls;
pub use texts::{ReplaceFault, Texts};
