//! Tests of `fec_area` with files of veritysetup, and of `tree_repair` over images in memory and their parity.
#![tactic(auto)]

#[cfg(test)]
mod damages;
#[cfg(test)]
mod losing;
#[cfg(test)]
mod parity;
#[cfg(test)]
mod remaking;
#[cfg(test)]
mod repairing;
#[cfg(test)]
mod restoring;
#[cfg(test)]
mod summing;
#[cfg(test)]
mod unreadable;
