//! Tests of commands over images in memory, whose devices each fail at one call. A crate with tests is proved twice, so they have
//! their own crate.
#![tactic(auto)]

#[cfg(test)]
mod commands;
#[cfg(test)]
mod failing_images;
#[cfg(test)]
mod quiet_system;
