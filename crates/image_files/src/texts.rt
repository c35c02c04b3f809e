//! What replaces a text under a path.
ghost use Rattle.std.specs.Prelude.{ℕ, List, Result};
ghost use Rattle.image_files.specs.declared.texts.ReplaceFault.{ReplaceFault as Fault};

use thiserror::Error;

/// Why a text isn't replaced. The old one is still under its path then, or the new one if `Sync` comes last.
#[derive(Clone, Copy, Debug, PartialEq, Eq, Error)]
pub enum ReplaceFault {
    /// Memory ran out.
    #[error("NoMemory")]
    NoMemory,
    /// The new text can't be written beside the old one.
    #[error("Write")]
    Write,
    /// The new text can't be synced.
    #[error("Sync")]
    Sync,
    /// The new text can't replace the old one.
    #[error("Rename")]
    Rename,
}

/// Texts under paths.
pub trait Texts {
    /// What a call leaves: of what was before it, the path, the bytes, its result, and what is after it.
    ghost replaces: { Self → List ℕ → List ℕ → Result Unit Fault → Self → Type 0 };

    /// What a trial leaves: of what was before it, the path, its result, and what is after it.
    ghost tries: { Self → List ℕ → Result Unit Fault → Self → Type 0 };

    /// Replaces the text under a path by these bytes: an interruption leaves the old text or the new one.
    fn replace(&mut self, path: &str, bytes: &[u8]) -> Result<(), ReplaceFault>
        ensures { replaces self.old path.now bytes.now result self.new };

    /// Finds out whether `replace` can create its file: creates one beside the path, and removes it again.
    ///
    /// # Errors
    ///
    /// `NoMemory`, or `Write` if no file can be created.
    fn try_replace(&mut self, path: &str) -> Result<(), ReplaceFault>
        ensures { tries self.old path.now result self.new };
}
