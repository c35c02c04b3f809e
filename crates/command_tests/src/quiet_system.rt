//! Generators that are seeded by the system, no progress line and no journal.
ghost use Rattle.std.specs.Prelude.{◌≡◌};

use device_adapters::{NoProgress, Progress, Watchers};
use image_commands::{Generators, NoRandomBytes, SystemGenerators};
use nbd_server::Journal;
use rand::rngs::StdRng;
use std::random::RandomSource;

#[derive(Drop)]
pub struct QuietSystem<'a, R> {
    pub generators: SystemGenerators<'a, R>,
}

impl<R: RandomSource> Generators for QuietSystem<'_, R> {
    type Generator = StdRng;

    ghost gives = { λ old outcome new. new ≡ old };

    fn generator(&mut self) -> Result<StdRng, NoRandomBytes> {
        self.generators.generator()
    }
}

impl<R> Progress for QuietSystem<'_, R> {
    fn begin(&mut self) {}

    fn tell(&mut self, _done: u64, _all: Option<u64>) {}

    fn seconds(&mut self) -> u64 {
        0
    }
}

impl<R> Watchers for QuietSystem<'_, R> {
    type Watcher = NoProgress;

    fn watcher(&self) -> NoProgress {
        NoProgress
    }
}

impl<R> Journal for QuietSystem<'_, R> {
    ghost use Rattle.std.specs.Prelude.{false, ⊤};

    ghost priorities = { λ journal. false };

    ghost shows = { λ journal seconds. Unit {0} };

    fn has_priorities(&self) -> bool {
        false
    }

    fn seconds(&self) -> u64 {
        0
    }
}
