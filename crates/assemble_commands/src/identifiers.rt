//! UUIDs that are derived from a root hash or from a salt.
ghost use Rattle.std.specs.Prelude.{◌≡◌, drop, length, take};
ghost use Rattle.tree_shape.specs.Digests.{digest};
ghost use Rattle.assemble_commands.specs.Identifiers.{identifier, options_with, seed_options, seed_salt};
ghost use Rattle.command_line.specs.FormatOptions.{text_of};

use command_line::ImageOptions;
use tree_shape::{Algorithm, Digest, Salt};
use uuid::Uuid;

const BLOCK_SIZE: u32 = 4096;

/// Returns the UUID of the data partition: the first 128 bits of the root hash.
pub(crate) fn data_uuid(root: &Digest) -> [u8; 16]
    ensures { result ≡ take 16 root.now }
{
    first_half(root.as_bytes())
}

/// Returns the UUID of the tree's partition: the last 128 bits of the root hash.
pub(crate) fn hash_uuid(root: &Digest) -> [u8; 16]
    ensures { result ≡ drop 16 root.now }
{
    let mut uuid = [0; 16];
    uuid.copy_from_slice(&root.as_bytes()[16..]);
    uuid
}

fn first_half(bytes: &[u8]) -> [u8; 16]
    requires { length bytes.now ≡ 32 }
    ensures { result ≡ take 16 bytes.now }
{
    let mut uuid = [0; 16];
    uuid.copy_from_slice(&bytes[..16]);
    uuid
}

/// Returns the UUID of that name for a salt, of version 8: the first bits of SHA-256 of the salt and the name.
pub(crate) fn identifier(salt: &Salt, name: &[u8]) -> [u8; 16]
    ensures { result ≡ identifier salt.now name.now }
{
    let digest = salt.digest(name);
    Uuid::new_v8(first_half(digest.as_bytes())).into_bytes()
}

/// Returns the salt that a seed determines: its SHA-256.
pub(crate) fn seed_salt(seed: &str) -> Salt
    ensures { result ≡ seed_salt seed.now }
{
    let none = Salt::new(Algorithm::Sha256, &[]).unwrap();
    let digest = none.digest(seed.as_bytes());
    Salt::new(Algorithm::Sha256, digest.as_bytes()).unwrap()
}

/// Returns the options of the image: blocks of 4,096 bytes, and salt and identifier if a seed determines them.
pub(crate) fn seed_options(seed: Option<&str>) -> ImageOptions
    ensures { result ≡ seed_options (text_of seed.entry) }
{
    match seed {
        None => options_with(None, None),
        Some(seed) => {
            let salt = seed_salt(seed);
            let uuid = identifier(&salt, b"image");
            options_with(Some(salt), Some(uuid))
        }
    }
}

fn options_with(salt: Option<Salt>, uuid: Option<[u8; 16]>) -> ImageOptions
    ensures { result ≡ options_with salt uuid }
{
    ImageOptions {
        data_block: BLOCK_SIZE,
        hash_block: BLOCK_SIZE,
        blocks: None,
        salt,
        uuid,
    }
}
