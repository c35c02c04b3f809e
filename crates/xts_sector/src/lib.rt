//! XTS-AES on data units of whole blocks (IEEE 1619-2007), over the block cipher of `aes_block`. `aes_lanes`
//! processes sixteen blocks at once.
#![tactic(auto)]

mod decryption;
mod encryption;
mod first_tweaks;
mod masks;
mod tweak;
mod xts_key;

pub use xts_key::XtsKey;
