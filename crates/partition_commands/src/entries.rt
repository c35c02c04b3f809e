//! The entries of the devices `parity` and `root` in stack texts.
ghost use Rattle.std.specs.Prelude.{false, ◌≡◌, ◌≤◌, ◌+◌, ◌++◌, IfErr, OnOk, codes, length};
ghost use Rattle.allocation.specs.Asked.{asked};
ghost use Rattle.stack_files.specs.DiskEntries.{entry_text};
ghost use Rattle.partition_commands.specs.Loads.{stack_room};
ghost use Rattle.partition_commands.specs.RootStacks.{parity_entry};

use crate::ImageParity;
use allocation::{OutOfMemory, append};
use stack_files::push_linear_entry;

/// Appends the entry of a read-only device `parity` over the partition of the parity, if there is one.
pub(crate) fn push_parity(
    text: &mut Vec<u8>,
    parity: &Option<ImageParity>,
) -> Result<(), OutOfMemory>
    ensures ok { OnOk result (text.new.items ≡ text.old.items ++ parity_entry parity.now) }
    ensures err { IfErr result (λ e. asked e ≤ stack_room) }
{
    match parity {
        None => Ok(()),
        Some(parity) => push_linear_entry(text, false, b"parity", parity.part),
    }
}

/// Appends the entry of a read-only device `root` with that line.
pub(crate) fn push_root(text: &mut Vec<u8>, line: &[u8]) -> Result<(), OutOfMemory>
    ensures ok { OnOk result (text.new.items ≡ text.old.items ++ entry_text false (codes "root") line.now) }
    ensures err { IfErr result (λ e. asked e ≤ stack_room + length line.now) }
{
    append(text, b"root,,,ro,")?;
    append(text, line)?;
    append(text, b";\n")?;
    Ok(())
}
