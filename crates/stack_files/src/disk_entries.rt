//! The entries of stack texts over a disk, each of one `linear` line.
ghost use Rattle.std.specs.Prelude.{◌≡◌, ◌≤◌, ◌++◌, IfErr, OnOk, decimal, length};
ghost use Rattle.allocation.specs.Asked.{asked};
ghost use Rattle.dm_table.specs.Names.{most_name};
ghost use Rattle.stack_files.specs.DiskEntries.{entry_room, entry_text, flags_text, linear_line};

use allocation::{OutOfMemory, append};
use device_adapters::Part;
use itoa::Buffer;

/// Appends the entry of a device of that name over a part of the leaf DISK.
///
/// # Errors
///
/// `OutOfMemory` if an allocation of at most `entry_room` (511) elements fails.
#[tactic(auto, unfolding(crate::specs::DiskEntries::entry_text))]
pub fn push_linear_entry(
    text: &mut Vec<u8>,
    writable: bool,
    name: &[u8],
    part: Part,
) -> Result<(), OutOfMemory>
    requires { length name.now ≤ most_name }
    ensures ok { OnOk result (text.new.items ≡ text.old.items ++ entry_text writable name.now (linear_line part)) }
    ensures err { IfErr result (λ e. asked e ≤ entry_room) }
{
    append(text, name)?;
    append(text, flags_text(writable).as_bytes())?;
    push_linear(text, part)?;
    append(text, b";\n")?;
    Ok(())
}

fn flags_text(writable: bool) -> &'static str
    ensures { result.now ≡ flags_text writable }
{
    if writable { ",,,rw," } else { ",,,ro," }
}

#[tactic(auto, unfolding(crate::specs::DiskEntries::linear_line))]
fn push_linear(text: &mut Vec<u8>, part: Part) -> Result<(), OutOfMemory>
    ensures ok { OnOk result (text.new.items ≡ text.old.items ++ linear_line part) }
    ensures err { IfErr result (λ e. asked e ≤ entry_room) }
{
    append(text, b"0 ")?;
    push_number(text, part.count)?;
    append(text, b" linear DISK ")?;
    push_number(text, part.first)?;
    Ok(())
}

fn push_number(text: &mut Vec<u8>, number: u64) -> Result<(), OutOfMemory>
    ensures ok { OnOk result (text.new.items ≡ text.old.items ++ decimal number) }
    ensures err { IfErr result (λ e. asked e ≤ entry_room) }
{
    let mut digits = Buffer::new();
    append(text, digits.format(number).as_bytes())?;
    Ok(())
}
