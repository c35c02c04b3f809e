//! The partition types of root and `/usr` file systems by their names.
ghost use Rattle.std.specs.Prelude.{◌≡◌, find};
ghost use Rattle.std.specs.Str.{bytes_eq};
ghost use Rattle.partition_commands.specs.Kinds.{name_in};
ghost use Rattle.partition_commands.specs.NamedKinds.{kind_named, root_uuid, usr_uuid};

use crate::root_types::ROOT_TYPES;
use crate::usr_types::USR_TYPES;
use command_line::identifier_of;

/// Returns the UUID of the type of that name, as `root-x86-64` or `usr-arm64-verity`, in the byte order of its text form, or `None` if
/// there is no such type.
#[tactic(auto, unfolding(crate::specs::NamedKinds::kind_named))]
pub fn kind_named(name: &[u8]) -> Option<[u8; 16]>
    ensures { result ≡ kind_named name.now }
{
    identifier_of(root_uuid(name))
}

#[tactic(auto, unfolding(crate::specs::NamedKinds::root_uuid))]
fn root_uuid(name: &[u8]) -> &'static str
    ensures { result.now ≡ root_uuid name.now }
{
    let other = usr_uuid(name);
    uuid_in(ROOT_TYPES, name, other)
}

#[tactic(auto, unfolding(crate::specs::NamedKinds::usr_uuid))]
fn usr_uuid(name: &[u8]) -> &'static str
    ensures { result.now ≡ usr_uuid name.now }
{
    uuid_in(USR_TYPES, name, "-")
}

// The UUID of the type with that name among these, or else that other text.
#[tactic(auto, unfolding(crate::specs::Kinds::name_in))]
fn uuid_in(types: &[(&'static str, &'static str)], name: &[u8], other: &'static str) -> &'static str
    ensures { result.now ≡ name_in types.now (λ row. row.1.now) (λ row. row.0.now) name.now other.now }
{
    match row_named(types, name) {
        Some(row) => row.0,
        None => other,
    }
}

fn row_named(
    types: &[(&'static str, &'static str)],
    name: &[u8],
) -> Option<(&'static str, &'static str)>
    ensures { result ≡ find (λ row. bytes_eq row.1.now name.now) types.now }
{
    types.iter().copied().find(|row| row.1.as_bytes() == name)
}
