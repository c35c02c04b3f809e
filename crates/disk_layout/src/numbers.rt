//! Fields of a table, appended one after the other.
ghost use Rattle.std.specs.Prelude.{◌≡◌, ◌≤◌, ◌++◌, IfErr, OnOk, length};
ghost use Rattle.allocation.specs.Asked.{asked};
ghost use Rattle.disk_layout.specs.Numbers.{bytes32, bytes64, padded, stored_uuid, table_room};

use allocation::{OutOfMemory, append, resize};
use uuid::Uuid;

/// Appends a little-endian number of 4 bytes.
#[tactic(auto, unfolding(crate::specs::Numbers::bytes32))]
pub(crate) fn push32(text: &mut Vec<u8>, number: u32) -> Result<(), OutOfMemory>
    ensures ok { OnOk result (text.new.items ≡ text.old.items ++ bytes32 number) }
    ensures err { IfErr result (λ e. asked e ≤ table_room) }
{
    let bytes = number.to_le_bytes();
    append(text, &bytes)?;
    Ok(())
}

/// Appends a little-endian number of 8 bytes.
#[tactic(auto, unfolding(crate::specs::Numbers::bytes64))]
pub(crate) fn push64(text: &mut Vec<u8>, number: u64) -> Result<(), OutOfMemory>
    ensures ok { OnOk result (text.new.items ≡ text.old.items ++ bytes64 number) }
    ensures err { IfErr result (λ e. asked e ≤ table_room) }
{
    let bytes = number.to_le_bytes();
    append(text, &bytes)?;
    Ok(())
}

/// Appends a UUID, whose first three fields are stored little-endian.
#[tactic(auto, unfolding(crate::specs::Numbers::stored_uuid))]
pub(crate) fn push_uuid(text: &mut Vec<u8>, uuid: &[u8; 16]) -> Result<(), OutOfMemory>
    ensures ok { OnOk result (text.new.items ≡ text.old.items ++ stored_uuid uuid.now) }
    ensures err { IfErr result (λ e. asked e ≤ table_room) }
{
    let bytes = Uuid::from_bytes(*uuid).to_bytes_le();
    append(text, &bytes)?;
    Ok(())
}

/// Makes a text that many bytes long, with zeros after what it has.
pub(crate) fn pad(text: &mut Vec<u8>, count: usize) -> Result<(), OutOfMemory>
    requires { count ≤ table_room }
    ensures ok { OnOk result (text.new.items ≡ padded count text.old.items) }
    ensures size { OnOk result (length text.new.items ≡ count) }
    ensures err { IfErr result (λ e. asked e ≤ table_room) }
{
    resize(text, count, 0)?;
    Ok(())
}
