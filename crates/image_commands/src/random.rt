//! A salt and an identifier drawn from random bytes.
ghost use Rattle.std.specs.Prelude.{◌≡◌, Result};
ghost use Rattle.rand_core.specs.Stream.{fill_bytes};
ghost use Rattle.uuid.specs.Parts.{v4_of_fill};

use rand::make_rng;
use rand::rngs::StdRng;
use rand_core::Rng;
use std::random::RandomSource;
use tree_shape::{Algorithm, Salt};
use uuid::Uuid;

/// There are no random bytes.
#[derive(Clone, Copy, Debug, PartialEq, Eq)]
pub struct NoRandomBytes;

/// What makes generators of random bytes. A generator is made only if something is drawn.
pub trait Generators {
    ghost use Rattle.image_commands.specs.declared.random.NoRandomBytes.{NoRandomBytes};

    /// A generator.
    type Generator: Rng + Drop;

    /// What a call gives, and what it leaves.
    ghost gives: { Self → Result Self.Generator NoRandomBytes → Self → Type 0 };

    /// A new generator.
    fn generator(&mut self) -> Result<Self::Generator, NoRandomBytes>
        ensures { gives self.old result self.new };
}

/// Generators that are seeded by the system.
#[derive(Drop)]
pub struct SystemGenerators<'a, R> {
    rt: &'a R,
}

impl<'a, R> SystemGenerators<'a, R> {
    /// Returns generators that are seeded from `rt`.
    pub fn new(rt: &'a R) -> SystemGenerators<'a, R> {
        SystemGenerators { rt }
    }
}

impl<R: RandomSource> Generators for SystemGenerators<'_, R> {
    type Generator = StdRng;

    ghost gives = { λ old outcome new. new ≡ old };

    fn generator(&mut self) -> Result<StdRng, NoRandomBytes> {
        match make_rng(self.rt) {
            Ok(generator) => Ok(generator),
            Err(_) => Err(NoRandomBytes),
        }
    }
}

/// Returns the stream's next 32 bytes as a salt, and a version 4 identifier from the stream that is left.
pub fn draw<R: Rng>(random: &mut R) -> (Salt, [u8; 16])
    ensures salt { result.0 ≡ (fill_bytes 32 (R.stream random.old)).0 }
    ensures uuid { (result.1, R.stream random.new) ≡ v4_of_fill (fill_bytes 16 (fill_bytes 32 (R.stream random.old)).1) }
{
    let mut bytes = [0u8; 32];
    random.fill_bytes(&mut bytes);
    let uuid = Uuid::new_v4(random);
    (
        Salt::new(Algorithm::Sha256, &bytes).unwrap(),
        uuid.into_bytes(),
    )
}
