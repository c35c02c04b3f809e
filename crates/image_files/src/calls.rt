//! The calls of a file system by which a text is replaced.
ghost use Rattle.std.specs.Prelude.{◌≡◌, Err, IfErr, IfOk, Ok, string_bytes};
ghost use Rattle.image_files.specs.Calls.{FileRelations, IsNoDraft};

use crate::texts::ReplaceFault;
use std::io::ErrorKind;
use thiserror::Error;

/// A call that failed.
#[derive(Clone, Copy, Debug, PartialEq, Eq, Error)]
#[error("Failed")]
pub struct CallFault;

/// Why a file isn't created.
#[derive(Clone, Copy, Debug, PartialEq, Eq, Error)]
pub enum CreateFault {
    /// The name is taken.
    #[error("Exists")]
    Exists,
    /// The file system can't create the file, or it doesn't get the permissions that it is to have.
    #[error("Failed")]
    Failed,
}

/// A file system.
pub trait FileCalls {
    /// An open file that was created.
    type File: Drop;

    /// What each call leaves.
    ghost relations: { FileRelations Self Self.File };

    /// The path with the symbolic links at its end followed, so that it names no link.
    ///
    /// # Errors
    ///
    /// `NoMemory`, or `Write` if the links can't be followed.
    fn resolve(&mut self, path: &str) -> Result<String, ReplaceFault>
        ensures ok { IfOk result (λ target. relations.resolves self.old path.now (Ok (string_bytes target)) self.new) }
        ensures err { IfErr result (λ fault. IsNoDraft fault × relations.resolves self.old path.now (Err fault) self.new) }
        ensures same { IfErr result (λ fault. self.new ≡ self.old) };

    /// Creates a file of this name, exclusively, with the owner and the permissions of another one if there is one.
    fn create(&mut self, name: &str, like: &str) -> Result<Self::File, CreateFault>
        ensures outcome { relations.creates self.old name.now like.now result self.new }
        ensures same { IfErr result (λ fault. self.new ≡ self.old) };

    /// Creates an empty file of this name, exclusively: a file that has the name already isn't opened.
    ///
    /// # Errors
    ///
    /// What the system says; `AlreadyExists` if the name is taken.
    fn make(&mut self, name: &str) -> Result<Self::File, ErrorKind>
        ensures { relations.makes self.old name.now result self.new };

    /// Writes all these bytes into a file.
    fn write(&mut self, file: &mut Self::File, bytes: &[u8]) -> Result<(), CallFault>
        ensures { relations.writes self.old file.old bytes.now result file.new self.new };

    /// Syncs a file.
    fn sync(&mut self, file: &Self::File) -> Result<(), CallFault>
        ensures { relations.syncs self.old file.now result self.new };

    /// Renames a file, in the place of another one if there is one.
    fn rename(&mut self, from: &str, to: &str) -> Result<(), CallFault>
        ensures { relations.renames self.old from.now to.now result self.new };

    /// Syncs the folder in which a path lies.
    fn sync_folder(&mut self, path: &str) -> Result<(), CallFault>
        ensures { relations.lists self.old path.now result self.new };

    /// Removes a file, if the file system can.
    fn remove(&mut self, name: &str)
        ensures { relations.removes self.old name.now self.new };
}
