//! Texts in files.
use crate::calls::FileCalls;
use crate::draft::{replace_text, try_draft};
use crate::texts::{ReplaceFault, Texts};
use std::alloc::Global;

/// Texts in files, under their paths.
#[derive(Drop)]
pub struct FileTexts<C> {
    pub calls: C,
    alloc: Global,
}

impl<C> FileTexts<C> {
    pub fn new(alloc: Global, calls: C) -> FileTexts<C> {
        FileTexts { calls, alloc }
    }
}

impl<C: FileCalls> Texts for FileTexts<C> {
    ghost use Rattle.image_files.specs.Drafts.{Replaces, Tries};

    ghost replaces = { λ old path bytes result new. Replaces C.relations old.calls path bytes result new.calls };

    ghost tries = { λ old path result new. Tries C.relations old.calls path result new.calls };

    fn replace(&mut self, path: &str, bytes: &[u8]) -> Result<(), ReplaceFault> {
        replace_text(self.alloc, &mut self.calls, path, bytes)
    }

    fn try_replace(&mut self, path: &str) -> Result<(), ReplaceFault> {
        try_draft(self.alloc, &mut self.calls, path)
    }
}
