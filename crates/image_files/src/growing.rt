//! Files that are made.
ghost use Rattle.std.specs.Prelude.{IfErr, OnOk};
ghost use Rattle.image_files.specs.NewFiles.{FailsToMake, Makes};

use crate::calls::{CallFault, FileCalls};
use crate::texts::ReplaceFault;
use block_device::OpenFault;
use std::io::ErrorKind;

/// Makes an empty file if a path leads to none, and syncs the folder that lists it.
///
/// # Errors
///
/// What the system answered.
pub fn make_file<C: FileCalls>(calls: &mut C, path: &str) -> Result<(), OpenFault>
    ensures ok { OnOk result (Makes C.relations calls.old path.now calls.new) }
    ensures err { IfErr result (λ fault. FailsToMake C.relations calls.old path.now fault calls.new) }
{
    let target = match calls.resolve(path) {
        Ok(target) => target,
        Err(ReplaceFault::NoMemory) => return Err(OpenFault::NoMemory),
        Err(_) => return Err(OpenFault::OtherFault),
    };
    match calls.make(target.as_str()) {
        Ok(file) => drop(file),
        Err(ErrorKind::AlreadyExists) => return Ok(()),
        Err(kind) => return Err(OpenFault::from(kind)),
    }
    match calls.sync_folder(target.as_str()) {
        Ok(()) => Ok(()),
        Err(CallFault) => Err(OpenFault::OtherFault),
    }
}
