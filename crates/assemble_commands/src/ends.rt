//! The ends of a disk: cleared before it is filled, and written after that.
ghost use Rattle.std.specs.Prelude.{◌≡◌, ◌≤◌, ◌+◌, ◌*◌, IfErr, IfOk, OnOk, length};
ghost use Rattle.allocation.specs.Asked.{asked};
ghost use Rattle.disk_layout.specs.Ends.{back_bytes, front_bytes};
ghost use Rattle.disk_layout.specs.Numbers.{table_room};
ghost use Rattle.partition_table.specs.Disks.{bytes_of_size};
ghost use Rattle.image_files.specs.Opener.{calls};
ghost use Rattle.assemble_commands.specs.StepEnds.{EndsClearing, EndsTable};
ghost use Rattle.assemble_commands.specs.Plans.{disk_id, partitions_of};
ghost use Rattle.assemble_commands.specs.Steps.{ClearsEnds, PutsTable, is_short};

use crate::identifiers::identifier;
use crate::plan::{DiskPlan, data_partition, hash_partition, parity_partition};
use allocation::{OutOfMemory, zeros};
use block_device::BlockDev;
use disk_layout::{TableEnds, back_sector, table_ends, write_ends};
use image_commands::{ImageFault, MadeImage};
use image_files::{FileUse, Images, open_apart};
use partition_table::Disk;
use std::alloc::Global;
use verity_format::FormatFault;

const CLEARED: usize = 32768;

const LEAST: u64 = 4096;

/// Writes zeros over both ends of the disk under a path, so that no table is there while it is filled.
///
/// # Errors
///
/// - `NoMemory` if room for 32,768 bytes was refused.
/// - `Open` if the disk can't be opened for writing, or is one of these files.
/// - `Format` with `HashTooSmall` if it has too few sectors, or with `Device` if it failed.
pub(crate) fn clear_ends<'a, I: Images>(
    alloc: Global,
    images: &mut I,
    files: &[FileUse],
    path: &'a str,
    needed: u64,
) -> Result<(), ImageFault<'a>>
    ensures ok { OnOk result (ClearsEnds (calls I.relations I.Dev.state images.old images.new) files.now path.now needed) }
    ensures err { IfErr result (EndsClearing (calls I.relations I.Dev.state images.old images.new) files.now path.now needed) }
{
    let empty = zeros(alloc, CLEARED)?;
    let image = open_apart(images, files, path, true)?;
    let mut disk = image.device;
    let sectors = disk.sectors();
    if is_short(sectors, needed) {
        return Err(ImageFault::Format(FormatFault::HashTooSmall { needed }));
    }
    match write_ends(&mut disk, &empty, sectors.saturating_sub(64), &empty) {
        Ok(()) => {
            images.close(path, disk);
            Ok(())
        }
        Err(_) => Err(ImageFault::Format(FormatFault::Device)),
    }
}

// Whether a disk of so many sectors is too small.
fn is_short(sectors: u64, needed: u64) -> bool
    ensures { result ≡ is_short sectors needed }
{
    sectors < needed || sectors < LEAST
}

/// Writes the partition table of a disk under a path.
///
/// # Errors
///
/// Those of `clear_ends`.
pub(crate) fn put_table<'a, I: Images>(
    alloc: Global,
    images: &mut I,
    files: &[FileUse],
    path: &'a str,
    plan: &DiskPlan,
    made: &MadeImage,
) -> Result<(), ImageFault<'a>>
    ensures ok { OnOk result (PutsTable (calls I.relations I.Dev.state images.old images.new) files.now path.now plan.now made.now) }
    ensures err { IfErr result (EndsTable (calls I.relations I.Dev.state images.old images.new) files.now path.now plan.now.parts.sectors) }
{
    let image = open_apart(images, files, path, true)?;
    let mut device = image.device;
    let sectors = device.sectors();
    let needed = plan.parts.sectors;
    if is_short(sectors, needed) {
        return Err(ImageFault::Format(FormatFault::HashTooSmall { needed }));
    }
    let disk = Disk::of(&device, plan.size);
    let ends = ends_of(alloc, disk, plan, made)?;
    match write_ends(&mut device, &ends.front, back_sector(disk), &ends.back) {
        Ok(()) => {
            images.close(path, device);
            Ok(())
        }
        Err(_) => Err(ImageFault::Format(FormatFault::Device)),
    }
}

// The ends of a disk with the partitions of the image.
fn ends_of(
    alloc: Global,
    disk: Disk,
    plan: &DiskPlan,
    made: &MadeImage,
) -> Result<TableEnds, OutOfMemory>
    ensures front { IfOk result (λ ends. ends.front.items ≡ front_bytes disk (disk_id made.now) (partitions_of plan.now made.now)) }
    ensures back { IfOk result (λ ends. ends.back.items ≡ back_bytes disk (disk_id made.now) (partitions_of plan.now made.now)) }
    ensures sizes { IfOk result (λ ends. (length ends.front.items ≡ 2 * bytes_of_size disk.size + 16384) × (length ends.back.items ≡ bytes_of_size disk.size + 16384)) }
    ensures err { IfErr result (λ e. asked e ≤ table_room) }
{
    let id = identifier(&made.salt, b"disk");
    let data = data_partition(plan, made);
    let hash = hash_partition(plan, made);
    if plan.has_parity {
        let parity = parity_partition(plan, made);
        return table_ends(alloc, disk, id, &[data, hash, parity]);
    }
    table_ends(alloc, disk, id, &[data, hash])
}
