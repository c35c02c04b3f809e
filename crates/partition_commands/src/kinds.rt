//! The names of partition types.
ghost use Rattle.std.specs.Prelude.{◌≡◌, find};
ghost use Rattle.std.specs.Str.{bytes_eq};
ghost use Rattle.partition_commands.specs.Kinds.{common_name, has_type, is_signature_text, is_signature_type, name_in, partition_type_name, signature_name, type_name, usr_name};

use crate::root_types::ROOT_TYPES;
use crate::signature_types::SIGNATURE_TYPES;
use crate::usr_types::USR_TYPES;
use uuid::Uuid;

/// A type's UUID and its name, of those that no architecture has of its own.
pub const COMMON_TYPES: &[(&str, &str)] = &[
    ("c12a7328-f81f-11d2-ba4b-00a0c93ec93b", "esp"),
    ("bc13c2ff-59e6-4262-a352-b275fd6f7172", "xbootldr"),
    ("0657fd6d-a4ab-43c4-84e5-0933c84b4f4f", "swap"),
    ("933ac7e1-2eb4-4f13-b844-0e14e2aef915", "home"),
    ("3b8f8425-20e0-4f3b-907f-1a25a76f98e8", "srv"),
    ("4d21b016-b534-45c2-a9fb-5c16e091fd2d", "var"),
    ("7ec6f557-3bc5-4aca-b293-16ef5df639d1", "tmp"),
    ("773f91ef-66d4-49b5-bd83-d683bf40ad16", "user-home"),
    ("0fc63daf-8483-4772-8e79-3d69d8477de4", "linux-generic"),
];

/// The name of a type that the Discoverable Partitions Specification has, and `-` for any other.
pub fn kind_name(kind: &[u8; 16]) -> &'static str
    ensures { result.now ≡ partition_type_name kind.now }
{
    let mut buffer = Uuid::encode_buffer();
    let text = Uuid::from_bytes(*kind)
        .hyphenated()
        .encode_lower(&mut buffer);
    type_name(text.as_bytes())
}

/// Whether partitions of the type hold the signature of a root hash.
pub(crate) fn is_signature_type(kind: &[u8; 16]) -> bool
    ensures { result ≡ is_signature_type kind.now }
{
    let mut buffer = Uuid::encode_buffer();
    let text = Uuid::from_bytes(*kind)
        .hyphenated()
        .encode_lower(&mut buffer);
    is_signature_text(text.as_bytes())
}

#[tactic(auto, unfolding(crate::specs::Kinds::is_signature_text))]
fn is_signature_text(text: &[u8]) -> bool
    ensures { result ≡ is_signature_text text.now }
{
    has_type(SIGNATURE_TYPES, text)
}

// Whether a type among these has that UUID.
#[tactic(auto, unfolding(crate::specs::Kinds::has_type))]
fn has_type(types: &[(&'static str, &'static str)], text: &[u8]) -> bool
    ensures { result ≡ has_type types.now (λ row. row.0.now) text.now }
{
    type_in(types, text).is_some()
}

#[tactic(auto, unfolding(crate::specs::Kinds::type_name))]
fn type_name(text: &[u8]) -> &'static str
    ensures { result.now ≡ type_name text.now }
{
    let other = usr_name(text);
    name_in(ROOT_TYPES, text, other)
}

#[tactic(auto, unfolding(crate::specs::Kinds::usr_name))]
fn usr_name(text: &[u8]) -> &'static str
    ensures { result.now ≡ usr_name text.now }
{
    let other = signature_name(text);
    name_in(USR_TYPES, text, other)
}

#[tactic(auto, unfolding(crate::specs::Kinds::signature_name))]
fn signature_name(text: &[u8]) -> &'static str
    ensures { result.now ≡ signature_name text.now }
{
    let other = common_name(text);
    name_in(SIGNATURE_TYPES, text, other)
}

#[tactic(auto, unfolding(crate::specs::Kinds::common_name))]
fn common_name(text: &[u8]) -> &'static str
    ensures { result.now ≡ common_name text.now }
{
    name_in(COMMON_TYPES, text, "-")
}

// The name of the type with that UUID among these, or else that other name.
#[tactic(auto, unfolding(crate::specs::Kinds::name_in))]
fn name_in(types: &[(&'static str, &'static str)], text: &[u8], other: &'static str) -> &'static str
    ensures { result.now ≡ name_in types.now (λ row. row.0.now) (λ row. row.1.now) text.now other.now }
{
    match type_in(types, text) {
        Some(row) => row.1,
        None => other,
    }
}

fn type_in(
    types: &[(&'static str, &'static str)],
    text: &[u8],
) -> Option<(&'static str, &'static str)>
    ensures { result ≡ find (λ row. bytes_eq row.0.now text.now) types.now }
{
    types.iter().copied().find(|row| row.0.as_bytes() == text)
}
