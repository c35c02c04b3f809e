//! Whether two paths lead to one place.
ghost use Rattle.std.specs.Prelude.{◌≡◌, true, Err, IfErr, IfOk, OnErr};
ghost use Rattle.block_device.specs.FileCalls.{IsUnsaidOfPath};
ghost use Rattle.block_device.specs.declared.open_fault.OpenFault.TheVariants as open_fault;
ghost use Rattle.image_files.specs.OnePlace.{IsPlaceUnknown, Resolves, ResolvesAtMost};
ghost use Rattle.image_files.specs.declared.texts.ReplaceFault.TheVariants as replace_fault;

use crate::calls::FileCalls;
use crate::one_file::is_one_file;
use crate::system_calls::folder_and_name;
use crate::texts::ReplaceFault;
use block_device::{FileId, OpenFault, metadata_at};
use std::rt::Files;

/// Whether both paths lead to one name in one folder, after the symbolic links at their ends.
///
/// # Errors
///
/// `NoMemory` if a call that resolves a path, or one on the folder of a resolved path, ran out of memory.
pub fn is_one_place<R: Files, C: FileCalls>(
    rt: &R,
    calls: &mut C,
    path: &str,
    other: &str,
) -> Result<bool, OpenFault>
    ensures equal { IfOk result (λ one. path.now ≡ other.now → one ≡ true) }
    ensures err { IfErr result (λ fault. fault ≡ open_fault.NoMemory) }
    ensures cause { OnErr result (IsPlaceUnknown C.relations calls.old path.now other.now calls.new) }
    ensures calls { ResolvesAtMost C.relations calls.old path.now other.now calls.new }
{
    if path == other {
        return Ok(true);
    }
    let Some(target) = target_of(calls, path)? else {
        return Ok(false);
    };
    let Some(other_target) = target_of(calls, other)? else {
        return Ok(false);
    };
    let (folder, name) = folder_and_name(target.as_str());
    let (other_folder, other_name) = folder_and_name(other_target.as_str());
    if name != other_name {
        return Ok(false);
    }
    Ok(is_one_file(id_at(rt, folder)?, id_at(rt, other_folder)?))
}

/// The path with the symbolic links at its end followed, if they can be.
///
/// # Errors
///
/// `NoMemory`.
pub fn target_of<C: FileCalls>(calls: &mut C, path: &str) -> Result<Option<String>, OpenFault>
    ensures err { IfErr result (λ fault. fault ≡ open_fault.NoMemory) }
    ensures cause { OnErr result (C.relations.resolves calls.old path.now (Err replace_fault.NoMemory) calls.new) }
    ensures calls { Resolves C.relations calls.old path.now calls.new }
{
    match calls.resolve(path) {
        Ok(target) => Ok(Some(target)),
        Err(ReplaceFault::NoMemory) => Err(OpenFault::NoMemory),
        Err(_) => Ok(None),
    }
}

// Which file or folder is under a path, if the system says so.
fn id_at<R: Files>(rt: &R, path: &str) -> Result<Option<FileId>, OpenFault>
    ensures err { IfErr result (λ fault. fault ≡ open_fault.NoMemory) }
    ensures cause { OnErr result (IsUnsaidOfPath path.now open_fault.NoMemory) }
{
    match metadata_at(rt, path) {
        Ok(metadata) => Ok(FileId::of(&metadata)),
        Err(OpenFault::NoMemory) => Err(OpenFault::NoMemory),
        Err(_) => Ok(None),
    }
}
