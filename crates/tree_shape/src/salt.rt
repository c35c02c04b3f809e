//! A salt and its digest algorithm, of fixed size.
ghost use Rattle.std.specs.Prelude.{◌≡◌, ◌-◌, ◌++◌, ◌↔◌, ◌≤◌, length, replicate, IsSome, IfSome};
ghost use Rattle.tree_shape.specs.Digests.{digest};
ghost use Rattle.tree_shape.specs.declared.algorithm.Algorithm.TheVariants.{Sha256 as sha256_algorithm};

use crate::{Algorithm, Digest};
use sha2::{Digest as _, Sha256};
use std::marker::Model;

/// The salt that is hashed before each block, at most 256 bytes, and the digest algorithm. Contracts treat it as the
/// list of its bytes, since there is only one algorithm.
#[derive(Clone, Copy)]
pub struct Salt {
    algorithm: Algorithm,
    bytes: [u8; 256],
    len: usize,
}

impl Model for Salt {
    ghost use Rattle.std.specs.Prelude.{List, ℕ};

    ghost Value = { List ℕ };

    ghost use Rattle.tree_shape.specs.Salt.{salt_bytes, IsSalt, inside_of, inside_of-salt_bytes};

    ghost view = { salt_bytes };

    ghost invariant = { IsSalt };

    ghost inverse = { inside_of };

    ghost inverse_ok = { inside_of-salt_bytes };
}

impl Salt {
    /// Returns a salt with these bytes, or `None` if there are more than 256.
    pub fn new(algorithm: Algorithm, salt: &[u8]) -> Option<Salt>
        ensures found { IsSome result ↔ (length salt.now ≤ 256) }
        ensures value { IfSome result (λ s. s ≡ salt.now) }
    {
        if salt.len() > 256 {
            return None;
        }
        Some(Salt {
            algorithm,
            bytes: padded(salt),
            len: salt.len(),
        })
    }

    /// Returns the digest algorithm.
    pub fn algorithm(&self) -> Algorithm
        ensures { result ≡ sha256_algorithm }
    {
        self.algorithm
    }

    /// Returns the bytes of the salt, at most 256.
    pub fn bytes(&self) -> &[u8]
        ensures value { result.now ≡ self.now }
        ensures size { length result.now ≤ 256 }
    {
        &self.bytes[..self.len]
    }

    /// Returns the digest of the salt followed by the block. The two are not copied together.
    pub fn digest(&self, block: &[u8]) -> Digest
        ensures { result ≡ digest self.now block.now }
    {
        match self.algorithm {
            Algorithm::Sha256 => sha256(self.bytes(), block),
        }
    }
}

/// Returns SHA-256 of `salt` followed by `block`.
#[tactic(auto, unfolding(crate::specs::Digests::digest))]
fn sha256(salt: &[u8], block: &[u8]) -> Digest
    ensures { result ≡ digest salt.now block.now }
{
    let mut hasher = Sha256::new();
    hasher.update(salt);
    hasher.update(block);
    Digest::new(hasher.finalize())
}

/// Returns the salt padded with zeros to 256 bytes.
fn padded(salt: &[u8]) -> [u8; 256]
    requires { length salt.now ≤ 256 }
    ensures { result ≡ salt.now ++ replicate (256 - length salt.now) 0 }
{
    let mut bytes = [0; 256];
    bytes[..salt.len()].copy_from_slice(salt);
    bytes
}
