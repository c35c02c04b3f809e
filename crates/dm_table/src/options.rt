//! The optional arguments of a line.
ghost use Rattle.std.specs.Prelude.{◌≡◌, ◌≤◌, [], ◌∷◌, ◌++◌, length, All, IfOk, IfErr, OnOk, OnErr};
ghost use Rattle.allocation.specs.Asked.{WasRefused, asked};
ghost use Rattle.dm_table.specs.Names.{most_name};
ghost use Rattle.dm_table.specs.Options.{is_one_of};

use crate::table::Name;
use allocation::{OutOfMemory, push};
use std::alloc::Global;
use std::marker::Model;

/// Options in the order written. In a line that was read, no two have the same name.
#[derive(Drop)]
pub struct Options {
    words: Vec<Name>,
}

impl Model for Options {
    ghost use Rattle.std.specs.Prelude.{List, ℕ};

    ghost Value = { List (List ℕ) };

    ghost view = { λ o. o.words.items };
}

impl Options {
    /// Returns an empty list of options.
    pub fn new(alloc: Global) -> Options
        ensures { result ≡ [] }
    {
        Options {
            words: Vec::new(alloc),
        }
    }

    /// Appends an option.
    ///
    /// # Errors
    ///
    /// `OutOfMemory` if the allocation of room for one option fails; the options are unchanged.
    pub fn push(&mut self, word: Name) -> Result<(), OutOfMemory>
        ensures ok { OnOk result (self.new ≡ self.old ++ word ∷ []) }
        ensures same { OnErr result (self.new ≡ self.old) }
        ensures err { IfErr result (WasRefused 1) }
    {
        push(&mut self.words, word)
    }

    /// Returns the options in the order written.
    pub fn as_slice(&self) -> &[Name]
        ensures { result.now ≡ self.now }
    {
        self.words.as_slice()
    }

    pub(crate) fn try_clone(&self, alloc: Global) -> Result<Options, OutOfMemory>
        requires { All (λ word. length word ≤ most_name) self.now }
        ensures ok { IfOk result (λ options. options ≡ self.now) }
        ensures err { IfErr result (λ e. asked e ≤ most_name) }
    {
        let mut options = Options::new(alloc);
        for word in self.as_slice() {
            options.push(Name::new(alloc, word.as_slice())?)?;
        }
        Ok(options)
    }
}

/// Returns whether `word` is one of the options.
pub fn is_kept(options: &Options, word: &[u8]) -> bool
    ensures { result ≡ is_one_of word.now options.now }
{
    options.as_slice().iter().any(|one| one.as_slice() == word)
}
