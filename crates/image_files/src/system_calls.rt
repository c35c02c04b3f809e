//! The operating system's files.
ghost use Rattle.std.specs.Prelude.{IfErr, IfOk};
ghost use Rattle.image_files.specs.Calls.{IsNoDraft};
ghost use Rattle.image_files.specs.SystemFiles.{CreatesNew, IsOpenText, IsUnopenedText, OpenBy, WasAsked};
ghost use Rattle.image_files.specs.declared.system_calls.SystemCalls.{SystemCalls as Calls};

use crate::calls::{CallFault, CreateFault, FileCalls};
use crate::texts::ReplaceFault;
use block_device::OpenFault;
use std::fs::{File, Metadata, OpenFile, OpenOptions, Permissions};
use std::io::{ErrorKind, Write};
use std::os::fd::AsFd;
use std::os::unix::fs::{MetadataExt, OpenOptionsExt, PermissionsExt, fchown};
use std::path::PathBuf;
use std::rt::Files;
use std::{fs, io};

/// As many links as Linux follows in a path.
const MOST_LINKS: u32 = 40;

/// The bits of a mode that say who may read, write and run a file.
const PERMISSION_BITS: u32 = 0o777;

/// The permissions of a new file, of which the process takes away those of its mask.
const NEW_FILE: u32 = 0o666;

/// The operating system's files.
#[derive(Drop)]
pub struct SystemCalls<'a, R> {
    rt: &'a R,
}

impl<'a, R> SystemCalls<'a, R> {
    pub fn new(rt: &'a R) -> SystemCalls<'a, R> {
        SystemCalls { rt }
    }
}

/// The folder in which a path lies, and the name that it has there.
pub fn folder_and_name(path: &str) -> (&str, &str) {
    match path.rsplit_once('/') {
        None => (".", path),
        Some(("", name)) => ("/", name),
        Some((folder, name)) => (folder, name),
    }
}

/// The file under a path, opened for reading alone.
///
/// # Errors
///
/// The fault of what the system answered.
pub fn open_to_read<R: Files<File = File> + AllocGlobal>(
    rt: &R,
    path: &str,
) -> Result<File, OpenFault>
    ensures ok { IfOk result (IsOpenText (Calls R) path.now) }
    ensures err { IfErr result (IsUnopenedText (Calls R) path.now) }
{
    match SystemCalls::new(rt).open_by(OpenOptions::new().read(true), NEW_FILE, path) {
        Ok(file) => Ok(file),
        Err(kind) => Err(OpenFault::from(kind)),
    }
}

// Whether a path names no symbolic link, by what the reading of one answered.
fn is_no_link(kind: ErrorKind) -> bool {
    matches!(kind, ErrorKind::InvalidInput | ErrorKind::NotFound)
}

fn resolve_fault(kind: ErrorKind) -> ReplaceFault
    ensures { IsNoDraft result }
{
    match kind {
        ErrorKind::OutOfMemory => ReplaceFault::NoMemory,
        _ => ReplaceFault::Write,
    }
}

fn done(outcome: io::Result<()>) -> Result<(), CallFault> {
    match outcome {
        Ok(()) => Ok(()),
        Err(_) => Err(CallFault),
    }
}

// Gives a file the owner, if the process may, and the permissions of another one.
fn take_after(file: &File, other: &Metadata) -> io::Result<()> {
    let _owner = fchown(file.as_fd(), Some(other.uid()), Some(other.gid()));
    file.set_permissions(Permissions::from_mode(other.mode() & PERMISSION_BITS))
}

impl<R: Files<File = File> + AllocGlobal> SystemCalls<'_, R> {
    // What is known of a regular file, if there is one under the path.
    fn file_under(&self, path: &str) -> Result<Option<Metadata>, CreateFault> {
        match fs::metadata(self.rt, path) {
            Ok(metadata) if metadata.is_file() => Ok(Some(metadata)),
            Err(error) if error.kind() == ErrorKind::NotFound => Ok(None),
            _ => Err(CreateFault::Failed),
        }
    }

    // Opens a file by these options, with the mode if it is created. Trusted: that the body makes this call.
    #[tactic(auto, using(crate::proofs::FileLemmas::asked_of))]
    fn open_by(&self, options: &mut OpenOptions, mode: u32, name: &str) -> Result<File, ErrorKind>
        ensures { WasAsked self.now (OpenBy options.old name.now result) self.now }
    {
        match options.mode(mode).open(self.rt, name) {
            Ok(file) => Ok(file),
            Err(error) => Err(error.kind()),
        }
    }

    fn create_new(&self, name: &str, mode: u32) -> Result<File, CreateFault>
        ensures { CreatesNew self.now name.now result self.now }
    {
        match self.open_by(OpenOptions::new().write(true).create_new(true), mode, name) {
            Ok(file) => Ok(file),
            Err(ErrorKind::AlreadyExists) => Err(CreateFault::Exists),
            Err(_) => Err(CreateFault::Failed),
        }
    }
}

impl<R: Files<File = File> + AllocGlobal> FileCalls for SystemCalls<'_, R> {
    ghost use Rattle.image_files.specs.SystemFiles.{system_relations};

    type File = File;

    ghost relations = { system_relations };

    // Trusted: that the body of each function makes the call that its clause names.

    #[tactic(auto, using(crate::proofs::FileLemmas::asked_of))]
    fn resolve(&mut self, path: &str) -> Result<String, ReplaceFault> {
        let Ok(mut at) = PathBuf::from_str(self.rt.alloc(), path) else {
            return Err(ReplaceFault::NoMemory);
        };
        for _ in 0..MOST_LINKS {
            match fs::read_link(self.rt, at.as_path()) {
                Ok(target) => {
                    at.pop();
                    if at.push(target.as_path()).is_err() {
                        return Err(ReplaceFault::NoMemory);
                    }
                }
                Err(error) if is_no_link(error.kind()) => return Ok(at.into_string()),
                Err(error) => return Err(resolve_fault(error.kind())),
            }
        }
        Err(ReplaceFault::Write)
    }

    // It is created with the permissions that it is to have, so that nobody else can open it before.
    #[tactic(auto, using(crate::proofs::FileLemmas::asked_of))]
    fn create(&mut self, name: &str, like: &str) -> Result<File, CreateFault> {
        let Some(other) = self.file_under(like)? else {
            return self.create_new(name, NEW_FILE);
        };
        let file = self.create_new(name, other.mode() & PERMISSION_BITS)?;
        if take_after(&file, &other).is_err() {
            let _removed = fs::remove_file(self.rt, name);
            return Err(CreateFault::Failed);
        }
        Ok(file)
    }

    fn make(&mut self, name: &str) -> Result<File, ErrorKind> {
        let mut options = OpenOptions::new();
        self.open_by(
            options.read(true).write(true).create_new(true),
            NEW_FILE,
            name,
        )
    }

    fn write(&mut self, file: &mut File, bytes: &[u8]) -> Result<(), CallFault> {
        done(file.write_all(bytes))
    }

    fn sync(&mut self, file: &File) -> Result<(), CallFault> {
        done(file.sync_all())
    }

    fn rename(&mut self, from: &str, to: &str) -> Result<(), CallFault> {
        done(fs::rename(self.rt, from, to))
    }

    fn sync_folder(&mut self, path: &str) -> Result<(), CallFault> {
        let (folder, _) = folder_and_name(path);
        match fs::open(self.rt, folder) {
            Ok(folder) => done(folder.sync_all()),
            Err(_) => Err(CallFault),
        }
    }

    fn remove(&mut self, name: &str) {
        let _removed = fs::remove_file(self.rt, name);
    }
}
