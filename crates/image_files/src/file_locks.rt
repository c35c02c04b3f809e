//! Locks on the files that are open for writing.
ghost use Rattle.std.specs.Prelude.{◌≡◌, ◌++◌, [], ◌∷◌, IfErr, OnErr, OnOk};
ghost use Rattle.block_device.specs.FileId.{file_id};
ghost use Rattle.image_files.specs.FileLocks.{IsLockRefused, IsNoLock, IsUnkept, is_locked, with_lock};

use crate::one_file::is_one_file;
use allocation::push;
use block_device::{FileDev, FileId, FileLock, OpenFault};
use std::alloc::Global;

/// The files that are open for writing: each is locked once against other processes, however often it is open.
#[derive(Drop)]
pub struct FileLocks {
    pub files: Vec<FileId>,
    pub locks: Vec<FileLock>,
}

impl FileLocks {
    /// No file is locked.
    pub fn new(alloc: Global) -> FileLocks
        ensures { result.files.items ≡ [] }
    {
        FileLocks {
            files: Vec::new(alloc),
            locks: Vec::new(alloc),
        }
    }

    /// Locks the file of a device, unless it is locked by these. A file that the system doesn't identify stays without a
    /// lock, and so does one on a file system that has none.
    ///
    /// # Errors
    ///
    /// `InUse` if another process holds a lock on the file; `NoMemory` if the system has no memory for a lock, or an allocation was
    /// refused.
    pub fn lock(&mut self, device: &FileDev) -> Result<(), OpenFault>
        ensures ok { OnOk result (self.new.files.items ≡ with_lock (file_id device.now) self.old.files.items) }
        ensures same { OnErr result (self.new.files.items ≡ self.old.files.items) }
        ensures err { IfErr result (IsNoLock device.now) }
    {
        let Some(id) = device.id() else {
            return Ok(());
        };
        if self.has_locked(id) {
            return Ok(());
        }
        if let Some(lock) = lock_of(device)? {
            keep(&mut self.locks, lock)?;
        }
        keep(&mut self.files, id)
    }

    fn has_locked(&self, id: FileId) -> bool
        ensures { result ≡ is_locked self.now.files.items id }
    {
        self.files
            .iter()
            .any(|file| is_one_file(Some(*file), Some(id)))
    }
}

// Appends an element.
fn keep<T: Drop>(list: &mut Vec<T>, element: T) -> Result<(), OpenFault>
    ensures ok { OnOk result (list.new.items ≡ list.old.items ++ element ∷ []) }
    ensures same { OnErr result (list.new.items ≡ list.old.items) }
    ensures err { IfErr result IsUnkept }
{
    match push(list, element) {
        Ok(()) => Ok(()),
        Err(_) => Err(OpenFault::NoMemory),
    }
}

// The lock of a device's file, if its file system has locks.
fn lock_of(device: &FileDev) -> Result<Option<FileLock>, OpenFault>
    ensures { IfErr result (IsLockRefused device.now) }
{
    match device.try_lock() {
        Ok(lock) => Ok(Some(lock)),
        Err(OpenFault::InUse) => Err(OpenFault::InUse),
        Err(OpenFault::NoMemory) => Err(OpenFault::NoMemory),
        Err(_) => Ok(None),
    }
}
