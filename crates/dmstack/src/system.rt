//! The services of the system: generators of random bytes, the progress line and the journal.
ghost use Rattle.std.specs.Prelude.{◌≡◌};

use device_adapters::{Progress, ProgressLine, Watchers};
use image_commands::{Generators, NoRandomBytes, SystemGenerators};
use nbd_server::Journal;
use rand::rngs::StdRng;
use std::random::RandomSource;
use std::rt::Clock;

/// Generators that are seeded by the system, a progress line on standard error, and whether that is systemd's journal.
#[derive(Drop)]
pub struct System<'a, R> {
    rt: &'a R,
    generators: SystemGenerators<'a, R>,
    line: ProgressLine<'a, R>,
    is_journal: bool,
}

impl<'a, R: Clock + Eprint> System<'a, R> {
    /// Returns the services of the system.
    pub fn new(rt: &'a R, is_journal: bool) -> System<'a, R> {
        System {
            rt,
            generators: SystemGenerators::new(rt),
            line: ProgressLine::new(rt),
            is_journal,
        }
    }
}

impl<R: RandomSource> Generators for System<'_, R> {
    type Generator = StdRng;

    ghost gives = { λ old outcome new. new ≡ old };

    fn generator(&mut self) -> Result<StdRng, NoRandomBytes> {
        self.generators.generator()
    }
}

impl<R: Clock + Eprint> Progress for System<'_, R> {
    fn begin(&mut self) {
        self.line.begin();
    }

    fn tell(&mut self, done: u64, all: Option<u64>) {
        self.line.tell(done, all);
    }

    fn seconds(&mut self) -> u64 {
        self.line.seconds()
    }
}

impl<'a, R: Clock + Eprint> Watchers for System<'a, R> {
    type Watcher = ProgressLine<'a, R>;

    fn watcher(&self) -> ProgressLine<'a, R> {
        ProgressLine::new(self.rt)
    }
}

impl<R: Clock> Journal for System<'_, R> {
    ghost use Rattle.std.specs.Prelude.{⊤};

    ghost priorities = { λ system. system.is_journal };

    ghost shows = { λ system seconds. Unit {0} };

    fn has_priorities(&self) -> bool {
        self.is_journal
    }

    // Of the clock that doesn't go back.
    fn seconds(&self) -> u64 {
        match self.rt.monotonic() {
            Ok(time) => time.as_secs(),
            Err(_) => 0,
        }
    }
}
