//! The digest algorithms.
ghost use Rattle.std.specs.Prelude.{◌≡◌, ◌≤◌, length};
ghost use Rattle.tree_shape.specs.Algorithms.{algorithm_name, algorithm_named};

/// The algorithm that computes the digests of a tree.
#[derive(Clone, Copy, Debug, PartialEq, Eq)]
pub enum Algorithm {
    /// SHA-256, with digests of 32 bytes.
    Sha256,
}

impl Algorithm {
    /// Returns the algorithm's name in tables and superblocks.
    pub fn name(self) -> &'static [u8]
        ensures value { result.now ≡ algorithm_name self }
        ensures size { length result.now ≤ 32 }
    {
        match self {
            Algorithm::Sha256 => b"sha256",
        }
    }

    /// Returns the algorithm with this name, or `None` if there is no such algorithm.
    pub fn named(name: &[u8]) -> Option<Algorithm>
        ensures { result ≡ algorithm_named name.now }
    {
        if name == Algorithm::Sha256.name() {
            Some(Algorithm::Sha256)
        } else {
            None
        }
    }
}
