//! The fields of a pin that have been read.
ghost use Rattle.std.specs.Prelude.{◌≡◌, ◌<◌, nat_lt};
ghost use Rattle.dm_table.specs.Numbers.{number};
ghost use Rattle.image_pin.specs.Fields.{block_size_of, finish, needed, no_fields, once, root_of, salt_of, set_field};

use crate::fault::PinFault;
use crate::name::PinName;
use crate::pin::Pin;
use table_text::number;
use tree_shape::{Algorithm, Digest, Salt};

const DIGITS: usize = 512;

/// The values that have been read.
#[derive(Clone, Copy)]
pub(crate) struct PinFields {
    pub root: Option<Digest>,
    pub salt: Option<Salt>,
    pub data_block: Option<u32>,
    pub hash_block: Option<u32>,
    pub blocks: Option<u64>,
}

impl PinFields {
    /// Returns fields without values.
    pub fn new() -> PinFields
        ensures { result ≡ no_fields }
    {
        PinFields {
            root: None,
            salt: None,
            data_block: None,
            hash_block: None,
            blocks: None,
        }
    }
}

/// Returns the fields with the value of this name added.
///
/// # Errors
///
/// - `Repeated` if an earlier line has the same name.
/// - `Value` if the value is invalid.
pub(crate) fn set_field(
    fields: PinFields,
    name: PinName,
    word: &[u8],
) -> Result<PinFields, PinFault>
    ensures { result ≡ set_field fields name word.now }
{
    match name {
        PinName::Root => {
            let root = once(name, fields.root.is_some(), root_of(word))?;
            Ok(PinFields {
                root: Some(root),
                ..fields
            })
        }
        PinName::Salt => {
            let salt = once(name, fields.salt.is_some(), salt_of(word))?;
            Ok(PinFields {
                salt: Some(salt),
                ..fields
            })
        }
        PinName::DataBlockSize => {
            let size = once(name, fields.data_block.is_some(), block_size_of(word))?;
            Ok(PinFields {
                data_block: Some(size),
                ..fields
            })
        }
        PinName::HashBlockSize => {
            let size = once(name, fields.hash_block.is_some(), block_size_of(word))?;
            Ok(PinFields {
                hash_block: Some(size),
                ..fields
            })
        }
        PinName::DataBlocks => {
            let blocks = once(name, fields.blocks.is_some(), number(word))?;
            Ok(PinFields {
                blocks: Some(blocks),
                ..fields
            })
        }
    }
}

// Returns the value of a name, unless an earlier line has the same name or the value is invalid.
fn once<T: Drop>(name: PinName, is_set: bool, value: Option<T>) -> Result<T, PinFault>
    ensures { result ≡ once name is_set value }
{
    if is_set {
        return Err(PinFault::Repeated(name));
    }
    match value {
        Some(value) => Ok(value),
        None => Err(PinFault::Value(name)),
    }
}

/// Returns the pin with these fields.
///
/// # Errors
///
/// `Missing` with the first name without a value.
pub(crate) fn finish(fields: PinFields) -> Result<Pin, PinFault>
    ensures { result ≡ finish fields }
{
    let root = needed(PinName::Root, fields.root)?;
    let salt = needed(PinName::Salt, fields.salt)?;
    let data_block = needed(PinName::DataBlockSize, fields.data_block)?;
    let hash_block = needed(PinName::HashBlockSize, fields.hash_block)?;
    let blocks = needed(PinName::DataBlocks, fields.blocks)?;
    Ok(Pin {
        root,
        salt,
        data_block,
        hash_block,
        blocks,
    })
}

fn needed<T: Drop>(name: PinName, value: Option<T>) -> Result<T, PinFault>
    ensures { result ≡ needed name value }
{
    match value {
        Some(value) => Ok(value),
        None => Err(PinFault::Missing(name)),
    }
}

// Returns the root hash of 64 hexadecimal digits.
#[tactic(auto, unfolding(crate::specs::Fields::root_of))]
fn root_of(word: &[u8]) -> Option<Digest>
    ensures { result ≡ root_of word.now }
{
    let mut root = [0u8; Digest::SIZE];
    match hex::decode_to_slice(word, &mut root) {
        Ok(()) => Some(Digest::new(root)),
        Err(_) => None,
    }
}

// Returns the salt of at most 512 hexadecimal digits, or no bytes for `-`.
#[tactic(auto, unfolding(crate::specs::Fields::salt_of))]
fn salt_of(word: &[u8]) -> Option<Salt>
    ensures { result ≡ salt_of word.now }
{
    if word == b"-".as_slice() {
        return Salt::new(Algorithm::Sha256, &[]);
    }
    if word.len() > DIGITS {
        return None;
    }
    let mut bytes = [0u8; DIGITS / 2];
    let salt = &mut bytes[..word.len() / 2];
    match hex::decode_to_slice(word, salt) {
        Ok(()) => Salt::new(Algorithm::Sha256, salt),
        Err(_) => None,
    }
}

// Returns a number below 2^32.
#[tactic(auto, unfolding(crate::specs::Fields::block_size_of))]
fn block_size_of(word: &[u8]) -> Option<u32>
    ensures { result ≡ block_size_of word.now }
{
    let size = number(word)?;
    match u32::try_from(size) {
        Ok(size) => Some(size),
        Err(_) => None,
    }
}
