//! A digest of fixed size.
ghost use Rattle.std.specs.Prelude.{◌≡◌, ◌≤◌, ◌+◌, ◌*◌, length};
ghost use Rattle.tree_shape.specs.Digests.{digest_in};

use std::marker::Model;

/// A SHA-256 digest. Contracts treat it as the list of its 32 bytes.
#[derive(Clone, Copy, Debug, PartialEq, Eq)]
pub struct Digest {
    bytes: [u8; Digest::SIZE],
}

impl Model for Digest {
    ghost use Rattle.std.specs.Prelude.{List, ℕ};

    ghost Value = { List ℕ };

    ghost view = { λ d. d.bytes };

    ghost inverse = { λ bytes. record { bytes = bytes } };
}

impl Digest {
    /// The size of a digest in bytes.
    pub const SIZE: usize = 32;

    /// Returns the digest with these bytes.
    pub fn new(bytes: [u8; Digest::SIZE]) -> Digest
        ensures { result ≡ bytes }
    {
        Digest { bytes }
    }

    /// Returns the 32 bytes of the digest.
    pub fn as_bytes(&self) -> &[u8]
        ensures value { result.now ≡ self.now }
        ensures size { length result.now ≡ 32 }
    {
        &self.bytes
    }
}

/// Returns the digest in a slot of a hash block: the 32 bytes from byte `32 * slot` on.
#[tactic(auto, unfolding(crate::specs::Digests::digest_in))]
pub fn digest_in(block: &[u8], slot: u64) -> Digest
    requires { 32 * slot + 32 ≤ length block.now }
    ensures { result ≡ digest_in block.now slot }
{
    let at = slot as usize * Digest::SIZE;
    let mut bytes = [0; Digest::SIZE];
    bytes.copy_from_slice(&block[at..at + Digest::SIZE]);
    Digest::new(bytes)
}
