//! Laws that join the parity of an image, as it is written, with what a `verity` line restores by it.
#![tactic(auto)]

pub mod laws;
