//! The command `update`: brings an image in place to the release of a pin.
#![tactic(auto)]

mod beginning;
mod counts;
mod devices;
mod growing;
pub mod laws;
mod listing;
mod moving;
mod order;
mod pin_apart;
mod release;
mod sealing;
mod unheard;
mod update;

pub use order::UpdateOrder;
pub use update::update_images;
