//! What a sector shows by its own bytes.
ghost use Rattle.std.specs.Prelude.{◌≡◌};
ghost use Rattle.find_commands.specs.Signatures.{file_system, gpt_kind, is_btrfs, is_erofs, is_ext4, is_squashfs, is_superblock, is_xfs, kind_at, volume_kind};

use crate::fields::big_endian32;
use crate::kind::Kind;
use partition_table::{number32, number64, stated_sector};
use verity_format::decode;

/// Returns what a sector shows: the first kind whose signature it has, in the order of `specs/Signatures`.
#[tactic(auto, unfolding(crate::specs::Signatures::kind_at))]
pub(crate) fn kind_at(sector: &[u8; 512]) -> Option<Kind>
    ensures { result ≡ kind_at sector.now }
{
    match stated_sector(sector) {
        Some(own) => Some(gpt_kind(own)),
        None => volume_kind(sector),
    }
}

fn gpt_kind(own: u64) -> Kind
    ensures { result ≡ gpt_kind own }
{
    if own == 1 { Kind::Gpt } else { Kind::GptBackup }
}

#[tactic(auto, unfolding(crate::specs::Signatures::volume_kind))]
fn volume_kind(sector: &[u8; 512]) -> Option<Kind>
    ensures { result ≡ volume_kind sector.now }
{
    if is_superblock(sector) {
        return Some(Kind::Verity);
    }
    if &sector[..8] == b"LUKS\xba\xbe\x00\x02".as_slice() {
        return Some(Kind::Luks2);
    }
    if &sector[..8] == b"SKUL\xba\xbe\x00\x02".as_slice() {
        return Some(Kind::Luks2Secondary);
    }
    file_system(sector)
}

fn is_superblock(sector: &[u8; 512]) -> bool
    ensures { result ≡ is_superblock sector.now }
{
    match decode(sector) {
        Ok(_superblock) => true,
        Err(_fault) => false,
    }
}

#[tactic(auto, unfolding(crate::specs::Signatures::file_system))]
fn file_system(sector: &[u8; 512]) -> Option<Kind>
    ensures { result ≡ file_system sector.now }
{
    if is_ext4(sector) {
        return Some(Kind::Ext4);
    }
    if is_erofs(sector) {
        return Some(Kind::Erofs);
    }
    if is_squashfs(sector) {
        return Some(Kind::Squashfs);
    }
    if is_xfs(sector) {
        return Some(Kind::Xfs);
    }
    if is_btrfs(sector) {
        return Some(Kind::Btrfs);
    }
    None
}

#[tactic(auto, unfolding(crate::specs::Signatures::is_ext4))]
fn is_ext4(sector: &[u8; 512]) -> bool
    ensures { result ≡ is_ext4 sector.now }
{
    number32(sector, 56) % 65536 == 0xef53
        && number32(sector, 24) <= 6
        && number32(sector, 76) <= 1
        && number32(sector, 88) < 65536
}

#[tactic(auto, unfolding(crate::specs::Signatures::is_erofs))]
fn is_erofs(sector: &[u8; 512]) -> bool
    ensures { result ≡ is_erofs sector.now }
{
    number32(sector, 0) == 0xe0f5_e1e2
        && 9 <= number32(sector, 12) % 256
        && number32(sector, 12) % 256 <= 16
}

#[tactic(auto, unfolding(crate::specs::Signatures::is_squashfs))]
fn is_squashfs(sector: &[u8; 512]) -> bool
    ensures { result ≡ is_squashfs sector.now }
{
    &sector[..4] == b"hsqs".as_slice() && number32(sector, 28) == 4
}

#[tactic(auto, unfolding(crate::specs::Signatures::is_xfs))]
fn is_xfs(sector: &[u8; 512]) -> bool
    ensures { result ≡ is_xfs sector.now }
{
    &sector[..4] == b"XFSB".as_slice()
        && big_endian32(sector, 4).is_power_of_two()
        && 512 <= big_endian32(sector, 4)
        && big_endian32(sector, 4) <= 65536
}

#[tactic(auto, unfolding(crate::specs::Signatures::is_btrfs))]
fn is_btrfs(sector: &[u8; 512]) -> bool
    ensures { result ≡ is_btrfs sector.now }
{
    &sector[64..72] == b"_BHRfS_M".as_slice() && number64(sector, 48) == 65536
}
