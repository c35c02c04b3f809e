//! Reading a superblock from its bytes.
ghost use Rattle.std.specs.Prelude.{◌≡◌, ◌+◌, ◌≤◌, ◌==◌, ◌↔◌, length, IfOk, IsSome, IfSome, is_some, slice_range, position};
ghost use Rattle.std.specs.Result.{result_err};
ghost use Rattle.std.specs.Str.{bytes_eq};
ghost use Rattle.std.specs.List.{before_first};
ghost use Rattle.tree_shape.specs.declared.algorithm.Algorithm.TheVariants.{Sha256};
ghost use Rattle.tree_shape.specs.Algorithms.{algorithm_name};
ghost use Rattle.verity_format.specs.FaultNames.{super_number, super_name};
ghost use Rattle.verity_format.specs.Superblock.{SuperRecord, IsSuperblock, Carries, field_number16, field_number32, field_number64, spelling, super_fault, read_of};

use crate::Superblock;
use thiserror::Error;
use tree_shape::{Algorithm, Salt, Shape, is_block_size};

/// The first wrong field of a superblock, in the order of the checks.
#[derive(Clone, Copy, Debug, PartialEq, Eq, Error)]
#[error("{}", self.name())]
pub enum SuperFault {
    /// The first 8 bytes are not `verity` and two zero bytes.
    Signature = 1,
    /// The version is not 1.
    Version = 2,
    /// The hash type is not 1.
    HashType = 3,
    /// The algorithm's name, up to its first zero byte, is not `sha256`.
    Algorithm = 4,
    /// The data block size is not 512, 1024, 2048 or 4096.
    DataBlockSize = 5,
    /// The hash block size is not 512, 1024, 2048 or 4096.
    HashBlockSize = 6,
    /// There is no data block, or the data or the tree ends after 2^54 sectors.
    DataBlocks = 7,
    /// The salt has more than 256 bytes.
    SaltSize = 8,
}

impl SuperFault {
    /// Returns the number in printed output.
    pub fn number(self) -> u8
        ensures { result ≡ super_number self }
    {
        self as u8
    }

    /// Returns the name in printed output.
    pub fn name(self) -> &'static str
        ensures { result.now ≡ super_name self }
    {
        match self {
            SuperFault::Signature => "Signature",
            SuperFault::Version => "Version",
            SuperFault::HashType => "HashType",
            SuperFault::Algorithm => "Algorithm",
            SuperFault::DataBlockSize => "DataBlockSize",
            SuperFault::HashBlockSize => "HashBlockSize",
            SuperFault::DataBlocks => "DataBlocks",
            SuperFault::SaltSize => "SaltSize",
        }
    }
}

/// Returns the superblock that the bytes store.
///
/// # Errors
///
/// The first wrong field, in the order of `SuperFault`.
pub fn decode(bytes: &[u8; 512]) -> Result<Superblock, SuperFault>
    ensures ok { IfOk result (λ s. Carries s bytes.now) }
    ensures err { result_err result ≡ super_fault bytes.now }
    // bytes that store a superblock are decoded as that superblock, and so are the bytes that `encode` returns
    ensures carried { (s : SuperRecord) → Carries s bytes.now → result ≡ Ok s }
    ensures written { (s : SuperRecord) → IsSuperblock s → bytes.now ≡ spelling s → result ≡ Ok s }
{
    fields(bytes)
}

// Returns the fields of the superblock, or the first wrong field.
#[tactic(auto, unfolding(crate::specs::Superblock::super_fault, crate::specs::Superblock::read_of))]
fn fields(bytes: &[u8; 512]) -> Result<Superblock, SuperFault>
    ensures value { IfOk result (λ s. s ≡ read_of bytes.now) }
    ensures err { result_err result ≡ super_fault bytes.now }
{
    if &bytes[..8] != b"verity\0\0".as_slice() {
        return Err(SuperFault::Signature);
    }
    if number32(bytes, 8) != 1 {
        return Err(SuperFault::Version);
    }
    if number32(bytes, 12) != 1 {
        return Err(SuperFault::HashType);
    }
    let Some(algorithm) = algorithm_of(&bytes[32..64]) else {
        return Err(SuperFault::Algorithm);
    };
    let data_block = number32(bytes, 64);
    if !is_block_size(data_block) {
        return Err(SuperFault::DataBlockSize);
    }
    let hash_block = number32(bytes, 68);
    if !is_block_size(hash_block) {
        return Err(SuperFault::HashBlockSize);
    }
    let Ok(shape) = Shape::new(data_block, hash_block, number64(bytes, 72), 1) else {
        return Err(SuperFault::DataBlocks);
    };
    let Some(salt) = salt_of(algorithm, bytes) else {
        return Err(SuperFault::SaltSize);
    };
    Ok(Superblock::with_shape(uuid_of(bytes), shape, salt))
}

// Returns the salt, or `None` if it is too long.
fn salt_of(algorithm: Algorithm, bytes: &[u8; 512]) -> Option<Salt>
    ensures found { IsSome result ↔ (field_number16 bytes.now 80 ≤ 256) }
    ensures value { IfSome result (λ s. s ≡ slice_range bytes.now 88 (88 + field_number16 bytes.now 80)) }
{
    let size = number16(bytes, 80) as usize;
    if size > 256 {
        return None;
    }
    Salt::new(algorithm, &bytes[88..88 + size])
}

fn uuid_of(bytes: &[u8; 512]) -> [u8; 16]
    ensures { result ≡ slice_range bytes.now 16 32 }
{
    let mut uuid = [0; 16];
    uuid.copy_from_slice(&bytes[16..32]);
    uuid
}

fn number16(bytes: &[u8], at: usize) -> u16
    requires { at + 2 ≤ length bytes.now }
    ensures { result ≡ field_number16 bytes.now at }
{
    let mut number = [0; 2];
    number.copy_from_slice(&bytes[at..at + 2]);
    u16::from_le_bytes(number)
}

fn number32(bytes: &[u8], at: usize) -> u32
    requires { at + 4 ≤ length bytes.now }
    ensures { result ≡ field_number32 bytes.now at }
{
    let mut number = [0; 4];
    number.copy_from_slice(&bytes[at..at + 4]);
    u32::from_le_bytes(number)
}

fn number64(bytes: &[u8], at: usize) -> u64
    requires { at + 8 ≤ length bytes.now }
    ensures { result ≡ field_number64 bytes.now at }
{
    let mut number = [0; 8];
    number.copy_from_slice(&bytes[at..at + 8]);
    u64::from_le_bytes(number)
}

// Returns the algorithm named by the field up to its first zero byte.
fn algorithm_of(field: &[u8]) -> Option<Algorithm>
    ensures { is_some result ≡ bytes_eq (before_first (λ b. b == 0) field.now) (algorithm_name Sha256) }
{
    Algorithm::named(before_zero(field))
}

// Returns the bytes before the first zero byte, or all if there is none.
fn before_zero(field: &[u8]) -> &[u8]
    ensures { result.now ≡ before_first (λ b. b == 0) field.now }
{
    let end = first_zero(field).unwrap_or(field.len());
    &field[..end]
}

fn first_zero(field: &[u8]) -> Option<usize>
    ensures { result ≡ position (λ b. b == 0) field.now }
{
    field.iter().position(|b| *b == 0)
}
