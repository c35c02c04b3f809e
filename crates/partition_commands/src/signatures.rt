//! The partition with the signature of a root hash.
ghost use Rattle.std.specs.Prelude.{◌≡◌, ◌≤◌, ◌++◌, IfErr, OnOk, length};
ghost use Rattle.allocation.specs.Asked.{asked};
ghost use Rattle.partition_commands.specs.Loads.{stack_room};
ghost use Rattle.partition_commands.specs.Signatures.{Holds, Seeks, may_hold, names_root, signature_entry};

use crate::kinds::is_signature_type;
use crate::parts::is_within;
use allocation::OutOfMemory;
use block_device::BlockDev;
use device_adapters::Part;
use image_files::part_of;
use partition_table::{Partition, SectorSize};
use stack_files::push_linear_entry;
use tree_shape::Digest;

/// Returns the first partition that holds the signature of a root hash: its type is one of a signature, and its first sector names
/// the root hash as systemd-repart writes it. A partition that can't be read isn't it.
pub(crate) fn find_signature<D: BlockDev>(
    device: &mut D,
    size: SectorSize,
    partitions: &[Partition],
    root: &Digest,
) -> Option<Partition>
    ensures { Seeks D.state device.old device.new size root.now partitions.now result }
{
    for partition in partitions {
        if is_signature(device, size, partition, root) {
            return Some(*partition);
        }
    }
    None
}

// Whether a partition holds the signature of a root hash.
fn is_signature<D: BlockDev>(
    device: &mut D,
    size: SectorSize,
    partition: &Partition,
    root: &Digest,
) -> bool
    ensures { Holds D.state device.old device.new size root.now partition.now result }
{
    let part = part_of(size, partition);
    if !may_hold(device, part, &partition.kind) {
        return false;
    }
    let mut sector = [0u8; 512];
    match device.read(part.first, &mut sector) {
        Ok(()) => names_root(&sector, root),
        Err(_) => false,
    }
}

// Whether a part of that type may hold a signature: it has a sector, and ends on the device.
#[tactic(auto, unfolding(crate::specs::Signatures::may_hold))]
fn may_hold<D: BlockDev>(device: &D, part: Part, kind: &[u8; 16]) -> bool
    ensures { result ≡ may_hold (D.state device.now) part kind.now }
{
    is_signature_type(kind) && 0 < part.count && is_within(device, part)
}

// Whether a sector begins as the signature of a root hash does, `{"rootHash":"` and the 64 digits.
#[tactic(auto, unfolding(crate::specs::Signatures::names_root))]
fn names_root(sector: &[u8], root: &Digest) -> bool
    requires { length sector.now ≡ 512 }
    ensures { result ≡ names_root root.now sector.now }
{
    let mut digits = [0u8; 2 * Digest::SIZE];
    hex::encode_to_slice(root.as_bytes(), &mut digits).unwrap();
    &sector[13..77] == digits.as_slice()
}

/// Appends the entry of a read-only device `signature` over that partition, if there is one.
pub(crate) fn push_signature(
    text: &mut Vec<u8>,
    size: SectorSize,
    signed: &Option<Partition>,
) -> Result<(), OutOfMemory>
    ensures ok { OnOk result (text.new.items ≡ text.old.items ++ signature_entry size signed.now) }
    ensures err { IfErr result (λ e. asked e ≤ stack_room) }
{
    match signed {
        None => Ok(()),
        Some(partition) => push_linear_entry(text, false, b"signature", part_of(size, partition)),
    }
}
