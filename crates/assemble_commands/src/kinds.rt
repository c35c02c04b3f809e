//! The types of the partitions of a verity image.
ghost use Rattle.std.specs.Prelude.{◌≡◌, ◌≤◌, ◌+◌, ◌++◌, IfErr, IfOk, OnOk, codes, length};
ghost use Rattle.allocation.specs.Asked.{asked};
ghost use Rattle.assemble_commands.specs.Kinds.{both_kinds, disk_kinds, kind_text};

use allocation::{OutOfMemory, append};
use partition_commands::kind_named;
use std::alloc::Global;

/// The types of the data partition and of that of its tree, in the byte order of their text form.
#[derive(Clone, Copy)]
pub(crate) struct DiskKinds {
    pub(crate) data: [u8; 16],
    pub(crate) hash: [u8; 16],
}

/// Returns the types `KIND-ARCH` and `KIND-ARCH-verity`, or `None` if one of the two has no UUID.
#[tactic(auto, unfolding(crate::specs::Kinds::disk_kinds))]
pub(crate) fn disk_kinds(
    alloc: Global,
    kind: &str,
    arch: &str,
) -> Result<Option<DiskKinds>, OutOfMemory>
    ensures ok { IfOk result (λ kinds. kinds ≡ disk_kinds kind.now arch.now) }
    ensures err { IfErr result (λ e. asked e ≤ length kind.now + length arch.now + 8) }
{
    let name = kind_text(alloc, kind, arch)?;
    let tree = tree_text(alloc, kind, arch)?;
    Ok(both_kinds(kind_named(&name), kind_named(&tree)))
}

fn both_kinds(data: Option<[u8; 16]>, hash: Option<[u8; 16]>) -> Option<DiskKinds>
    ensures { result ≡ both_kinds «data» hash }
{
    match (data, hash) {
        (Some(data), Some(hash)) => Some(DiskKinds { data, hash }),
        (Some(_), None) => None,
        (None, _) => None,
    }
}

// The name of the data partition's type.
fn kind_text(alloc: Global, kind: &str, arch: &str) -> Result<Vec<u8>, OutOfMemory>
    ensures ok { IfOk result (λ v. v.items ≡ kind_text kind.now arch.now) }
    ensures err { IfErr result (λ e. asked e ≤ length kind.now + length arch.now + 8) }
{
    let mut text = Vec::new(alloc);
    push_kind(&mut text, kind, arch)?;
    Ok(text)
}

#[tactic(auto, unfolding(crate::specs::Kinds::kind_text))]
fn push_kind(text: &mut Vec<u8>, kind: &str, arch: &str) -> Result<(), OutOfMemory>
    ensures ok { OnOk result (text.new.items ≡ text.old.items ++ kind_text kind.now arch.now) }
    ensures err { IfErr result (λ e. asked e ≤ length kind.now + length arch.now + 8) }
{
    append(text, kind.as_bytes())?;
    append(text, b"-")?;
    append(text, arch.as_bytes())?;
    Ok(())
}

// That of the tree's.
fn tree_text(alloc: Global, kind: &str, arch: &str) -> Result<Vec<u8>, OutOfMemory>
    ensures ok { IfOk result (λ v. v.items ≡ kind_text kind.now arch.now ++ codes "-verity") }
    ensures err { IfErr result (λ e. asked e ≤ length kind.now + length arch.now + 8) }
{
    let mut text = kind_text(alloc, kind, arch)?;
    append(&mut text, b"-verity")?;
    Ok(text)
}
