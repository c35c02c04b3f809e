//! Transfers of the commands with a stack file's device: requests that read or write sectors, and the device's bytes as a
//! stream.
#![tactic(auto)]

mod device_in;
mod device_out;
mod file_in;
mod filling;
mod image;
mod input;
mod output;
mod read;
mod request;
mod request_fault;
mod status;
mod stream_fault;
mod texts;
mod write;

pub use device_in::{Target, store_device};
pub use device_out::{Wanted, cat_device};
pub use file_in::store_file;
pub use image::store_image;
pub use input::{StorePlace, store};
pub use output::{SectorRange, cat};
pub use read::read_sectors;
pub use request_fault::RequestFault;
pub use status::{cat_status, store_status};
pub use stream_fault::{CatFault, StoreCause, StoreFault, StreamFault};
pub use texts::{say_cat_fault, say_store_fault};
pub use write::write_source;
