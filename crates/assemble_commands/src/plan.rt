//! What a disk is to hold.
ghost use Rattle.std.specs.Prelude.{◌≡◌, ◌≤◌, ◌^◌, IfErr, IfOk};
ghost use Rattle.image_commands.specs.Drawing.{drawing};
ghost use Rattle.image_commands.specs.TreePlaces.{HasNoShape, HasShape};
ghost use Rattle.verity_format.specs.Options.{superblock_with};
ghost use Rattle.verity_format.specs.Superblock.{IsSuperblock};
ghost use Rattle.assemble_commands.specs.Ends.{IsUnplanned};
ghost use Rattle.assemble_commands.specs.Plans.{IsParityCount, IsPlan, data_partition, hash_partition, padded, parity_partition, size_of};
ghost use Rattle.command_line.specs.words.Assemble.{assemble_record};

use crate::identifiers::{data_uuid, hash_uuid, identifier, seed_options};
use crate::kinds::DiskKinds;
use command_line::AssembleWords;
use disk_layout::{DiskParts, disk_parts, label_of, partition_at};
use fec_commands::parity_of;
use image_commands::{Generators, ImageFault, MadeImage, given_or_drawn, tree_of};
use partition_table::{Partition, SectorSize};
use tree_shape::Shape;
use verity_format::{FormatFault, FormatOptions, Superblock, image_sectors};

const MOST_SECTORS: u64 = 1 << 54;

const LARGE_SECTOR: u32 = 4096;

// In sectors of 512 bytes.
const LARGE_UNIT: u64 = 8;

/// How many bytes of parity a codeword has.
pub(crate) const ROOTS: u32 = 2;

// Linux filesystem data, which has no type of its own in the specification.
const PARITY_KIND: [u8; 16] = [
    0x0f, 0xc6, 0x3d, 0xaf, 0x84, 0x83, 0x47, 0x72, 0x8e, 0x79, 0x3d, 0x69, 0xd8, 0x47, 0x7d, 0xe4,
];

/// What a disk is to hold: the image, the types of its partitions, whether it has parity, and where the parts lie.
#[derive(Clone, Copy)]
pub(crate) struct DiskPlan {
    pub(crate) options: FormatOptions,
    pub(crate) superblock: Superblock,
    pub(crate) kinds: DiskKinds,
    pub(crate) size: SectorSize,
    pub(crate) has_parity: bool,
    pub(crate) parts: DiskParts,
}

/// Returns what a disk is to hold over so many sectors of data.
///
/// # Errors
///
/// - `Random` if salt and identifier are to be drawn, and there are no random bytes.
/// - `Format` with `Shape` if there is no data block, or the tree is too large.
pub(crate) fn plan_disk<'a, G: Generators>(
    generators: &mut G,
    words: &AssembleWords<'a>,
    sectors: u64,
    kinds: DiskKinds,
) -> Result<DiskPlan, ImageFault<'a>>
    ensures ok { IfOk result (IsPlan (drawing G.gives G.Generator.stream generators.old generators.new) (assemble_record words.now) sectors kinds) }
    ensures err { IfErr result (IsUnplanned (drawing G.gives G.Generator.stream generators.old generators.new) (assemble_record words.now) sectors) }
{
    let options = given_or_drawn(generators, seed_options(words.seed))?;
    let superblock = shaped(&options, sectors)?;
    let shape = superblock.shape();
    let hash = image_sectors(&shape);
    if hash > MOST_SECTORS {
        return Err(ImageFault::Format(FormatFault::Shape));
    }
    let parity = parity_count(&shape, hash, words.parity);
    let data = padded(sectors, words.sector_size);
    Ok(DiskPlan {
        options,
        superblock,
        kinds,
        size: size_of(words.sector_size),
        has_parity: words.parity,
        parts: disk_parts(data, hash, parity),
    })
}

// The superblock of the image that the options make of so many sectors of data.
fn shaped(options: &FormatOptions, sectors: u64) -> Result<Superblock, FormatFault>
    ensures ok { IfOk result (HasShape (superblock_with options.now sectors)) }
    ensures valid { IfOk result IsSuperblock }
    ensures err { IfErr result (HasNoShape (superblock_with options.now sectors)) }
{
    let superblock = tree_of(*options, sectors)?;
    prove!(superblock.uuid().len() == 16);
    prove!(superblock.salt().bytes().len() <= 256);
    Ok(superblock)
}

// How many sectors the parity takes, if there is any.
fn parity_count(shape: &Shape, hash: u64, has_parity: bool) -> u64
    requires { hash ≤ 2 ^ 54 }
    ensures { IsParityCount shape.now hash has_parity result }
{
    if !has_parity {
        return 0;
    }
    match parity_of(shape, hash, ROOTS) {
        Some(sectors) => sectors,
        None => 0,
    }
}

// So many sectors of 512 bytes, or the next number of them that are whole sectors of the disk, which have so many bytes.
fn padded(sectors: u64, bytes: u32) -> u64
    ensures { result ≡ padded bytes sectors }
{
    if bytes == LARGE_SECTOR {
        sectors.saturating_add(LARGE_UNIT - 1) / LARGE_UNIT * LARGE_UNIT
    } else {
        sectors
    }
}

// The sector size of that many bytes.
fn size_of(bytes: u32) -> SectorSize
    ensures { result ≡ size_of bytes }
{
    if bytes == LARGE_SECTOR {
        SectorSize::Bytes4096
    } else {
        SectorSize::Bytes512
    }
}

/// Returns the partition of the data: its UUID is the first half of the root hash.
pub(crate) fn data_partition(plan: &DiskPlan, made: &MadeImage) -> Partition
    ensures { result ≡ data_partition plan.now made.now }
{
    let label = label_of(b"d\0a\0t\0a\0");
    let uuid = data_uuid(&made.root);
    partition_at(plan.kinds.data, uuid, label, plan.size, 1, plan.parts.data)
}

/// Returns the partition of the hash image: its UUID is the second half of the root hash.
pub(crate) fn hash_partition(plan: &DiskPlan, made: &MadeImage) -> Partition
    ensures { result ≡ hash_partition plan.now made.now }
{
    let label = label_of(b"h\0a\0s\0h\0");
    let uuid = hash_uuid(&made.root);
    partition_at(plan.kinds.hash, uuid, label, plan.size, 2, plan.parts.hash)
}

/// Returns the partition of the parity, whose UUID is derived from the salt.
pub(crate) fn parity_partition(plan: &DiskPlan, made: &MadeImage) -> Partition
    ensures { result ≡ parity_partition plan.now made.now }
{
    let label = label_of(b"p\0a\0r\0i\0t\0y\0");
    let uuid = identifier(&made.salt, b"parity");
    partition_at(PARITY_KIND, uuid, label, plan.size, 3, plan.parts.parity)
}
