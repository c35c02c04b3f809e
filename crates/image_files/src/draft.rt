//! A new text beside the file whose place it takes.
ghost use Rattle.std.specs.Prelude.{◌≡◌, ◌≤◌, ◌+◌, ◌++◌, IfErr, IfOk, OnErr, OnOk, codes, decimal, length, string_bytes};
ghost use Rattle.allocation.specs.Asked.{asked};
ghost use Rattle.image_files.specs.Drafts.{IsDraft, IsFilled, IsPlaced, IsUndrafted, IsUnfilled, IsUnplaced, Replaces, Tries, beside};

use crate::calls::{CallFault, CreateFault, FileCalls};
use crate::texts::ReplaceFault;
use allocation::{OutOfMemory, joined, push_text};
use itoa::Buffer;
use std::alloc::Global;

/// So many names are tried at most: those that are taken were left by runs that were cut off.
const MOST_NAMES: u32 = 64;

/// A new text beside the file whose place it takes.
#[derive(Drop)]
pub struct Draft<F> {
    pub target: String,
    pub name: String,
    pub file: F,
}

// The name of that number under which a text is written beside the target.
fn name_beside(alloc: Global, target: &str, number: u32) -> Result<String, OutOfMemory>
    ensures ok { IfOk result (λ name. string_bytes name ≡ beside target.now number) }
    ensures err { IfErr result (λ e. asked e ≤ length target.now + 40) }
{
    if number == 0 {
        return joined(alloc, target, ".dmstack-new");
    }
    numbered_name(alloc, target, number)
}

fn numbered_name(alloc: Global, target: &str, number: u32) -> Result<String, OutOfMemory>
    ensures ok { IfOk result (λ name. string_bytes name ≡ target.now ++ (codes ".dmstack-new-" ++ decimal number)) }
    ensures err { IfErr result (λ e. asked e ≤ length target.now + 40) }
{
    let mut digits = Buffer::new();
    let mut name = joined(alloc, target, ".dmstack-new-")?;
    push_text(&mut name, digits.format(number))?;
    Ok(name)
}

// An empty draft beside what the path names.
fn create_draft<C: FileCalls>(
    alloc: Global,
    calls: &mut C,
    path: &str,
) -> Result<Draft<C::File>, ReplaceFault>
    ensures ok { IfOk result (λ draft. IsDraft C.relations calls.old path.now draft calls.new) }
    ensures err { IfErr result (λ fault. IsUndrafted C.relations calls.old path.now fault calls.new) }
{
    let target = calls.resolve(path)?;
    for number in 0..MOST_NAMES {
        let name = match name_beside(alloc, target.as_str(), number) {
            Ok(name) => name,
            Err(_) => return Err(ReplaceFault::NoMemory),
        };
        match calls.create(name.as_str(), target.as_str()) {
            Ok(file) => return Ok(Draft { target, name, file }),
            Err(CreateFault::Exists) => {}
            Err(CreateFault::Failed) => return Err(ReplaceFault::Write),
        }
    }
    Err(ReplaceFault::Write)
}

// Writes the text into a draft, and then syncs it.
fn fill<C: FileCalls>(
    calls: &mut C,
    draft: &mut Draft<C::File>,
    bytes: &[u8],
) -> Result<(), ReplaceFault>
    ensures ok { OnOk result (IsFilled C.relations calls.old draft.old bytes.now calls.new) }
    ensures err { IfErr result (λ fault. IsUnfilled C.relations calls.old draft.old bytes.now fault calls.new) }
    ensures same { (draft.new.target ≡ draft.old.target) × (draft.new.name ≡ draft.old.name) }
{
    match calls.write(&mut draft.file, bytes) {
        Ok(()) => {}
        Err(CallFault) => return Err(ReplaceFault::Write),
    }
    match calls.sync(&draft.file) {
        Ok(()) => Ok(()),
        Err(CallFault) => Err(ReplaceFault::Sync),
    }
}

// Replaces the draft's target by the draft, once the text is written into it and synced.
fn place<C: FileCalls>(
    calls: &mut C,
    draft: &mut Draft<C::File>,
    bytes: &[u8],
) -> Result<(), ReplaceFault>
    ensures ok { OnOk result (IsPlaced C.relations calls.old draft.old bytes.now calls.new) }
    ensures err { IfErr result (λ fault. IsUnplaced C.relations calls.old draft.old bytes.now fault calls.new) }
    ensures same { (draft.new.target ≡ draft.old.target) × (draft.new.name ≡ draft.old.name) }
{
    fill(calls, draft, bytes)?;
    match calls.rename(draft.name.as_str(), draft.target.as_str()) {
        Ok(()) => Ok(()),
        Err(CallFault) => Err(ReplaceFault::Rename),
    }
}

/// Replaces the text of the file under a path by way of a draft, which is removed if it doesn't replace the file.
///
/// # Errors
///
/// - `NoMemory` if memory for a name was refused.
/// - `Write` if the path can't be resolved, or no draft can be created or written.
/// - `Sync` if the draft, or after its renaming the folder, can't be synced.
/// - `Rename` if the draft can't replace the file.
pub fn replace_text<C: FileCalls>(
    alloc: Global,
    calls: &mut C,
    path: &str,
    bytes: &[u8],
) -> Result<(), ReplaceFault>
    ensures { Replaces C.relations calls.old path.now bytes.now result calls.new }
{
    let mut draft = create_draft(alloc, calls, path)?;
    if let Err(fault) = place(calls, &mut draft, bytes) {
        calls.remove(draft.name.as_str());
        return Err(fault);
    }
    match calls.sync_folder(draft.target.as_str()) {
        Ok(()) => Ok(()),
        Err(CallFault) => Err(ReplaceFault::Sync),
    }
}

/// Creates a draft beside the file under a path, and removes it again.
///
/// # Errors
///
/// `NoMemory` if memory for a name was refused, or `Write` if no draft can be created.
pub fn try_draft<C: FileCalls>(alloc: Global, calls: &mut C, path: &str) -> Result<(), ReplaceFault>
    ensures { Tries C.relations calls.old path.now result calls.new }
{
    let tried = create_draft(alloc, calls, path)?;
    calls.remove(tried.name.as_str());
    Ok(())
}
