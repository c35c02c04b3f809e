//! Tests of tables and sessions through public functions. A crate with tests is proved twice, so they have their own crate.
#![tactic(auto)]

#[cfg(test)]
mod sessions;
#[cfg(test)]
mod tables;
