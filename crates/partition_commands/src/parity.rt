//! The parity of a verity image, in a partition of its disk.
ghost use Rattle.std.specs.Prelude.{◌≡◌, ◌≤◌, ◌^◌, Some, IfErr, IfOk, option_map};
ghost use Rattle.command_line.specs.FecFiles.{fec_record};
ghost use Rattle.image_files.specs.Partitions.{part_of as sectors_of};
ghost use Rattle.partition_commands.specs.Parities.{HasParity, IsOf, IsParityEnd, IsParityIn, IsUnnamed, LacksParity, is_image_part, partition_named};

use crate::parts::ends_by;
use crate::{ImagePartitions, PartitionRefusal, PartitionsFault};
use block_device::OpenFault;
use command_line::{FecFile, named_partition};
use device_adapters::Part;
use fec_commands::covered_blocks;
use image_files::{UnopenedFile, only_named, part_of};
use partition_table::{Partition, PartitionTable, SectorSize};
use std::alloc::Global;
use verity_format::Superblock;

/// Which part of a disk holds the parity of an image, how many bytes of it a codeword has, and how many blocks it covers.
#[derive(Clone, Copy)]
pub struct ImageParity {
    pub part: Part,
    pub roots: u32,
    pub blocks: u64,
}

/// Returns the parity, in the partition that is named, of the image of a superblock in those two partitions, on a disk of so many
/// sectors; `None` if none is named.
///
/// # Errors
///
/// - `Open` with `NotFound` and the argument, unless it names exactly one partition.
/// - `Refused` with `OutsideDevice` if the partition ends past the end of the disk.
/// - `Open` with `SameFile` and the argument if it is one of the image's two partitions.
/// - `Fec` if it is too small, or data and hash blocks have different sizes.
/// - `NoMemory` if memory for a label was refused.
pub(crate) fn parity_in<'a>(
    alloc: Global,
    sectors: u64,
    table: &PartitionTable,
    both: &ImagePartitions,
    superblock: &Superblock,
    fec: &Option<FecFile<'a>>,
) -> Result<Option<ImageParity>, PartitionsFault<'a>>
    requires { (sectors_of table.now.size both.now.verity).count ≤ 2 ^ 54 }
    ensures ok { IfOk result (HasParity sectors table.now both.now superblock.now (option_map fec_record fec.now)) }
    ensures err { IfErr result (LacksParity sectors table.now both.now superblock.now (option_map fec_record fec.now)) }
{
    match fec {
        None => Ok(None),
        Some(fec) => {
            let parity = covering(alloc, sectors, table, both, superblock, fec)?;
            Ok(Some(parity))
        }
    }
}

// The parity in the partition of that name.
fn covering<'a>(
    alloc: Global,
    sectors: u64,
    table: &PartitionTable,
    both: &ImagePartitions,
    superblock: &Superblock,
    fec: &FecFile<'a>,
) -> Result<ImageParity, PartitionsFault<'a>>
    requires { (sectors_of table.now.size both.now.verity).count ≤ 2 ^ 54 }
    ensures ok { IfOk result (IsParityIn sectors table.now both.now superblock.now (fec_record fec.now)) }
    ensures err { IfErr result (IsParityEnd sectors table.now both.now superblock.now (fec_record fec.now)) }
{
    let partition = partition_named(alloc, table, fec.path)?;
    let part = part_of(table.size, &partition);
    if !ends_by(sectors, part) {
        return Err(PartitionsFault::Refused(PartitionRefusal::OutsideDevice));
    }
    if is_image_part(table.size, both, part) {
        return Err(unopened(fec.path, OpenFault::SameFile));
    }
    let shape = superblock.tree().shape;
    let hash_sectors = part_of(table.size, &both.verity).count;
    let blocks = covered_blocks(&shape, hash_sectors, part.count, fec.roots)?;
    Ok(ImageParity {
        part,
        roots: fec.roots,
        blocks,
    })
}

// The only partition that the word names.
fn partition_named<'a>(
    alloc: Global,
    table: &PartitionTable,
    word: &'a str,
) -> Result<Partition, PartitionsFault<'a>>
    ensures ok { IfOk result (λ p. partition_named word.now table.now ≡ Some p) }
    ensures err { IfErr result (IsUnnamed word.now table.now) }
{
    let Some(named) = named_partition(word) else {
        return Err(unopened(word, OpenFault::NotFound));
    };
    match only_named(alloc, &table.partitions, named)? {
        Some(partition) => Ok(partition),
        None => Err(unopened(word, OpenFault::NotFound)),
    }
}

// Whether a part of the disk begins as the image's data or as its tree.
fn is_image_part(size: SectorSize, both: &ImagePartitions, part: Part) -> bool
    ensures { result ≡ is_image_part size both.now part }
{
    part.first == part_of(size, &both.data).first || part.first == part_of(size, &both.verity).first
}

fn unopened<'a>(word: &'a str, fault: OpenFault) -> PartitionsFault<'a>
    ensures { IsOf word.now fault result }
{
    PartitionsFault::Open(UnopenedFile { fault, path: word })
}
