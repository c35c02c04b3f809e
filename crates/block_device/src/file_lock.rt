//! A lock on an open file.
ghost use Rattle.std.specs.Prelude.{IfErr};
ghost use Rattle.block_device.specs.FileCalls.{IsUnlocked};

use crate::OpenFault;
use std::fs::{File, OpenFile, TryLockError};

/// A lock that keeps other processes from locking the file, until it is dropped.
///
/// The lock is advisory: programs that don't ask for it aren't kept out. That the system gives one lock of a file at a time
/// is no clause of the kit; a script over two processes shows it.
#[derive(Drop)]
pub struct FileLock {
    // The lock is that of the open file, which this handle shares with the device.
    _file: File,
}

impl FileLock {
    pub(crate) fn of(file: &File) -> Result<FileLock, OpenFault>
        ensures { IfErr result (IsUnlocked file.now) }
    {
        let shared = match file.try_clone() {
            Ok(shared) => shared,
            Err(error) => return Err(OpenFault::from(error.kind())),
        };
        match shared.try_lock() {
            Ok(()) => Ok(FileLock { _file: shared }),
            Err(TryLockError::WouldBlock) => Err(OpenFault::InUse),
            Err(TryLockError::Error(error)) => Err(OpenFault::from(error.kind())),
        }
    }
}
