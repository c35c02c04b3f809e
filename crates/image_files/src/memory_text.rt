//! A text in memory.
ghost use Rattle.std.specs.Prelude.{◌≡◌};

use crate::texts::{ReplaceFault, Texts};
use allocation::copied;
use std::alloc::Global;

/// One text, whatever the path.
#[derive(Drop)]
pub struct MemoryText {
    pub bytes: Vec<u8>,
    alloc: Global,
}

impl MemoryText {
    /// An empty text.
    pub fn new(alloc: Global) -> MemoryText {
        MemoryText {
            bytes: Vec::new(alloc),
            alloc,
        }
    }
}

impl Texts for MemoryText {
    ghost use Rattle.std.specs.Prelude.{MatchResult, ◌≡◌, ◌≤◌, length};
    ghost use Rattle.allocation.specs.Refusal.{IsOutOfMemory};
    ghost use Rattle.image_files.specs.declared.texts.ReplaceFault.TheVariants.{NoMemory};

    ghost replaces = { λ old path bytes result new. MatchResult result (λ _. new.bytes.items ≡ bytes) (λ fault. (new ≡ old) × (fault ≡ NoMemory) × IsOutOfMemory (length bytes)) };

    ghost tries = { λ old path result new. new ≡ old };

    fn replace(&mut self, _path: &str, bytes: &[u8]) -> Result<(), ReplaceFault> {
        match copied(self.alloc, bytes) {
            Ok(text) => {
                self.bytes = text;
                Ok(())
            }
            Err(_) => Err(ReplaceFault::NoMemory),
        }
    }

    fn try_replace(&mut self, _path: &str) -> Result<(), ReplaceFault> {
        Ok(())
    }
}
