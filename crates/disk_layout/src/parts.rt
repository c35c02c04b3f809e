//! Where the partitions of a disk with a verity image lie.
ghost use Rattle.std.specs.Prelude.{◌≡◌};
ghost use Rattle.disk_layout.specs.Parts.{aligned, disk_parts, end_of, part_after};

use device_adapters::Part;

const ALIGNMENT: u64 = 2048;

/// The parts of a disk, in sectors of 512 bytes, and how many sectors the disk has at least.
#[derive(Clone, Copy, Debug, PartialEq, Eq)]
pub struct DiskParts {
    pub data: Part,
    pub hash: Part,
    pub parity: Part,
    pub sectors: u64,
}

/// Returns parts of so many sectors for data, hash image and parity, in this order, each from a multiple of 1 MiB on. The first and the
/// last MiB of the disk are left for the partition table. Sizes that no disk has are cut to 2^64 - 1 sectors.
pub fn disk_parts(data: u64, hash: u64, parity: u64) -> DiskParts
    ensures { result ≡ disk_parts «data» hash parity }
{
    let data = Part {
        first: ALIGNMENT,
        count: data,
    };
    let hash = part_after(data, hash);
    let parity = part_after(hash, parity);
    DiskParts {
        data,
        hash,
        parity,
        sectors: aligned(end_of(parity)).saturating_add(ALIGNMENT),
    }
}

// A part of so many sectors after another one.
fn part_after(before: Part, count: u64) -> Part
    ensures { result ≡ part_after before count }
{
    Part {
        first: aligned(end_of(before)),
        count,
    }
}

fn end_of(part: Part) -> u64
    ensures { result ≡ end_of part }
{
    part.first.saturating_add(part.count)
}

// The next multiple of 1 MiB.
fn aligned(sector: u64) -> u64
    ensures { result ≡ aligned sector }
{
    sector.saturating_add(ALIGNMENT - 1) / ALIGNMENT * ALIGNMENT
}
