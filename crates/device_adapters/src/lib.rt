//! Devices over another device: a part of it, one that writes only sectors that differ, one that lacks some sectors, and one that
//! reports its reads as progress; and copies of devices.
#![tactic(auto)]

mod beside;
mod copying;
mod differing;
mod lacking;
mod part;
mod progress;
mod progress_line;
mod put;
mod watched;
mod watchers;
mod window;

pub use beside::Beside;
pub use copying::copy_sectors;
pub use differing::Differing;
pub use lacking::{Lacking, lacking_window, part_window, whole_window};
pub use part::{OutsideDevice, Part};
pub use progress::{NoProgress, Progress};
pub use progress_line::ProgressLine;
pub use watched::{Watched, bytes_before};
pub use watchers::{Watchers, watcher_of};
pub use window::Window;
