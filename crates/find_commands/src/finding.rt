//! What is found on a disk.
ghost use Rattle.std.specs.Prelude.{◌≡◌, ◌≤◌, ◌^◌};
ghost use Rattle.find_commands.specs.Findings.{blocks_in, checksum_in, ext4_block, ext4_blocks, found_as, found_at, luks2_uuid, sectors_back, size_in, uuid_in};

use crate::checksum::Checksum;
use crate::fields::{big_endian32, big_endian64, block_bytes, blocks_product, identifier};
use crate::kind::Kind;
use crate::signatures::kind_at;
use partition_table::{number32, number64, uuid_at};
use uuid::Uuid;

/// The largest logarithm of a block size that an ext4 superblock may state, and its feature of 64-bit numbers.
const MOST_LOGARITHM: u32 = 6;

const HIGH_HALF: u64 = 1 << 32;

/// A thing that was found: the byte at which it begins, the sector that shows it, its kind, its size in bytes and in blocks if its header
/// states one, its identifier in the byte order of its text form, and what its checksum shows if it is a header of LUKS2. The size of a
/// hash image is that of its data.
#[derive(Clone, Copy)]
pub struct Finding {
    pub offset: u64,
    pub sector: u64,
    pub kind: Kind,
    pub size: Option<u64>,
    pub blocks: Option<u64>,
    pub uuid: Option<[u8; 16]>,
    pub checksum: Option<Checksum>,
}

/// Returns the thing that sector `at` shows, by its bytes alone. `None` if it has no signature, or if the thing would begin before
/// sector 0. The checksum of a LUKS2 header isn't checked.
#[tactic(auto, unfolding(crate::specs::Findings::found_at))]
pub fn found_at(at: u64, sector: &[u8; 512]) -> Option<Finding>
    requires { at ≤ 2 ^ 54 }
    ensures { result ≡ found_at at sector.now }
{
    match kind_at(sector) {
        Some(kind) => found_as(at, sector, kind),
        None => None,
    }
}

fn found_as(at: u64, sector: &[u8; 512], kind: Kind) -> Option<Finding>
    requires { at ≤ 2 ^ 54 }
    ensures { result ≡ found_as at sector.now kind }
{
    let before = sectors_back(kind, sector);
    if at < before {
        return None;
    }
    Some(Finding {
        offset: 512 * (at - before),
        sector: at,
        kind,
        size: size_in(kind, sector),
        blocks: blocks_in(kind, sector),
        uuid: uuid_in(kind, sector),
        checksum: checksum_in(kind),
    })
}

// How many sectors before its signature a thing begins.
fn sectors_back(kind: Kind, sector: &[u8; 512]) -> u64
    ensures { result ≡ sectors_back kind sector.now }
{
    match kind {
        Kind::Ext4 | Kind::Erofs => 2,
        Kind::Btrfs => 128,
        Kind::Luks2Secondary => big_endian64(sector, 256) / 512,
        Kind::Gpt | Kind::GptBackup | Kind::Verity | Kind::Luks2 | Kind::Squashfs | Kind::Xfs => 0,
    }
}

fn blocks_in(kind: Kind, sector: &[u8; 512]) -> Option<u64>
    ensures { result ≡ blocks_in kind sector.now }
{
    match kind {
        Kind::Verity => Some(number64(sector, 72)),
        Kind::Ext4 => Some(ext4_blocks(sector)),
        Kind::Erofs => Some(u64::from(number32(sector, 36))),
        Kind::Xfs => Some(big_endian64(sector, 8)),
        Kind::Gpt
        | Kind::GptBackup
        | Kind::Luks2
        | Kind::Luks2Secondary
        | Kind::Squashfs
        | Kind::Btrfs => None,
    }
}

fn size_in(kind: Kind, sector: &[u8; 512]) -> Option<u64>
    ensures { result ≡ size_in kind sector.now }
{
    match kind {
        Kind::Gpt | Kind::GptBackup => None,
        Kind::Verity => blocks_product(number64(sector, 72), u64::from(number32(sector, 64))),
        Kind::Luks2 | Kind::Luks2Secondary => Some(big_endian64(sector, 8)),
        Kind::Ext4 => blocks_product(ext4_blocks(sector), ext4_block(number32(sector, 24))),
        Kind::Erofs => blocks_product(
            u64::from(number32(sector, 36)),
            block_bytes(number32(sector, 12) % 256),
        ),
        Kind::Squashfs => Some(number64(sector, 40)),
        Kind::Xfs => blocks_product(big_endian64(sector, 8), u64::from(big_endian32(sector, 4))),
        Kind::Btrfs => Some(number64(sector, 112)),
    }
}

fn uuid_in(kind: Kind, sector: &[u8; 512]) -> Option<[u8; 16]>
    ensures { result ≡ uuid_in kind sector.now }
{
    match kind {
        Kind::Gpt | Kind::GptBackup => Some(uuid_at(sector, 56)),
        Kind::Verity => Some(identifier(sector, 16)),
        Kind::Luks2 | Kind::Luks2Secondary => luks2_uuid(&sector[168..204]),
        Kind::Ext4 => Some(identifier(sector, 104)),
        Kind::Erofs => Some(identifier(sector, 48)),
        Kind::Squashfs => None,
        Kind::Xfs | Kind::Btrfs => Some(identifier(sector, 32)),
    }
}

// That of a header of LUKS2 isn't checked by its first sector alone.
fn checksum_in(kind: Kind) -> Option<Checksum>
    ensures { result ≡ checksum_in kind }
{
    if kind.is_luks2() {
        Some(Checksum::Unchecked)
    } else {
        None
    }
}

// The identifier is stored as text.
fn luks2_uuid(text: &[u8]) -> Option<[u8; 16]>
    ensures { result ≡ luks2_uuid text.now }
{
    match Uuid::try_parse_ascii(text) {
        Ok(uuid) => Some(uuid.into_bytes()),
        Err(_) => None,
    }
}

// The upper half counts only with the feature of 64-bit numbers.
#[tactic(auto, unfolding(crate::specs::Findings::ext4_blocks))]
fn ext4_blocks(sector: &[u8; 512]) -> u64
    ensures { result ≡ ext4_blocks sector.now }
{
    let low = u64::from(number32(sector, 4));
    if number32(sector, 96) / 128 % 2 == 1 {
        low + u64::from(number32(sector, 336)) * HIGH_HALF
    } else {
        low
    }
}

fn ext4_block(logarithm: u32) -> u64
    ensures { result ≡ ext4_block logarithm }
{
    if logarithm > MOST_LOGARITHM {
        0
    } else {
        block_bytes(10 + logarithm)
    }
}
