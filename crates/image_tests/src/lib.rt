//! Tests of ciphers, digests, trees, caches, devices, `verity` lines and syncs through public functions, for what no argument
//! of the program reaches. A crate with tests is proved twice, so they have their own crate.
#![tactic(auto)]

#[cfg(test)]
mod caches;
#[cfg(test)]
mod ciphers;
#[cfg(test)]
mod devices;
#[cfg(test)]
mod digests;
#[cfg(test)]
mod runs;
#[cfg(test)]
mod stacks;
#[cfg(test)]
mod syncs;
#[cfg(test)]
mod trees;
#[cfg(test)]
mod verity;

/// Whether the digest has these hexadecimal digits.
#[cfg(test)]
fn has_digits(digest: &[u8], wanted: &str) -> bool {
    let mut digits = [0u8; 64];
    hex::encode_to_slice(digest, &mut digits).is_ok() && digits.as_slice() == wanted.as_bytes()
}
