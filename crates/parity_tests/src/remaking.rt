//! Lost hash blocks, reconstructed from the blocks below them.
use block_device::{BlockDev, MemoryDev};
use program_io::Counted;
use std::alloc::Global;
use std::process::Abort;
use std::test::Fail;
use tree_repair::{DamagedImage, Plan, repair_image};
use tree_shape::{Algorithm, Salt};
use verity_format::{Superblock, format, read_superblock};

/// An image over a ramp with some sectors overwritten, and what a repair without copies prints.
struct Case {
    /// The sizes of a data block and of a hash block in bytes, and the number of data blocks.
    data_block: u32,
    hash_block: u32,
    blocks: u64,
    /// The sectors of the data device and the hash device.
    data: u32,
    hash: u32,
    /// The sectors that are lost: of the hash device, and of the data device.
    lost: &'static [u64],
    changed: &'static [u64],
    write: bool,
    lines: &'static str,
    /// The sectors of the hash device that are still lost.
    still: &'static [u64],
}

// For 300 blocks the top level is at sector 1, the two blocks of the next level at 2 and 3, and the 19 blocks of the lowest
// from 4 on.
static CASES: [Case; 8] = [
    // the top block, one in the middle, and the last one
    Case {
        data_block: 512,
        hash_block: 512,
        blocks: 300,
        data: 300,
        hash: 23,
        lost: &[1, 2, 22],
        changed: &[],
        write: true,
        lines: "repaired hash 2 0 remade\nrepaired hash 1 0 remade\nrepaired hash 0 18 remade\n",
        still: &[],
    },
    // the repair may not write
    Case {
        data_block: 512,
        hash_block: 512,
        blocks: 300,
        data: 300,
        hash: 23,
        lost: &[1, 2, 22],
        changed: &[],
        write: false,
        lines: "repairable hash 2 0 remade\n",
        still: &[1, 2, 22],
    },
    // a data block is changed too: all blocks above the lowest level are made from hash blocks
    Case {
        data_block: 512,
        hash_block: 512,
        blocks: 300,
        data: 300,
        hash: 23,
        lost: &[1, 3],
        changed: &[7],
        write: true,
        lines: "repaired hash 2 0 remade\nrepaired hash 1 1 remade\n",
        still: &[],
    },
    // a hash block above the changed data block is lost
    Case {
        data_block: 512,
        hash_block: 512,
        blocks: 300,
        data: 300,
        hash: 23,
        lost: &[4, 5],
        changed: &[7],
        write: true,
        lines: "repaired hash 0 1 remade\n",
        still: &[4],
    },
    // no height is intact
    Case {
        data_block: 512,
        hash_block: 512,
        blocks: 300,
        data: 300,
        hash: 23,
        lost: &[1, 2, 5],
        changed: &[7],
        write: true,
        lines: "",
        still: &[1, 2, 5],
    },
    // there is only one data block below the last hash block of each level
    Case {
        data_block: 512,
        hash_block: 512,
        blocks: 257,
        data: 257,
        hash: 21,
        lost: &[1, 2, 3, 20],
        changed: &[],
        write: true,
        lines: "repaired hash 2 0 remade\nrepaired hash 1 0 remade\nrepaired hash 1 1 remade\nrepaired hash 0 16 remade\n",
        still: &[],
    },
    // data blocks that are larger, and smaller, than hash blocks
    Case {
        data_block: 4096,
        hash_block: 512,
        blocks: 17,
        data: 136,
        hash: 4,
        lost: &[1, 2, 3],
        changed: &[],
        write: true,
        lines: "repaired hash 1 0 remade\nrepaired hash 0 0 remade\nrepaired hash 0 1 remade\n",
        still: &[],
    },
    Case {
        data_block: 512,
        hash_block: 4096,
        blocks: 129,
        data: 129,
        hash: 32,
        lost: &[8, 16, 24],
        changed: &[],
        write: true,
        lines: "repaired hash 1 0 remade\nrepaired hash 0 0 remade\nrepaired hash 0 1 remade\n",
        still: &[],
    },
];

// Overwrites these sectors.
fn lose<R: Abort>(rt: &R, device: &mut MemoryDev, sectors: &[u64]) -> Result<(), Fail> {
    for sector in sectors {
        assert!(rt; *sector < device.sectors());
        assert!(rt; device.writable());
        device.write(*sector, &[0xa5; 512])?;
    }
    Ok(())
}

// The image before it was damaged, and its root hash.
fn formatted(
    alloc: Global,
    case: &Case,
    salt: Salt,
) -> Result<(MemoryDev, MemoryDev, tree_shape::Digest), Fail> {
    let superblock = Superblock::new([1; 16], case.data_block, case.hash_block, case.blocks, salt)?;
    let mut data = MemoryDev::ramp(alloc, case.data, true)?;
    let mut hash = MemoryDev::zeros(alloc, case.hash, true)?;
    let root = format(alloc, &mut data, &mut hash, superblock)?;
    Ok((data, hash, root))
}

fn repaired<R: Abort>(rt: &R, alloc: Global, case: &Case) -> Result<(), Fail> {
    let salt = Salt::new(Algorithm::Sha256, &[7, 9]).ok_or("no salt")?;
    let (mut data, mut hash, root) = formatted(alloc, case, salt)?;
    let (_data, mut wanted, _root) = formatted(alloc, case, salt)?;
    lose(rt, &mut data, case.changed)?;
    lose(rt, &mut hash, case.lost)?;
    lose(rt, &mut wanted, case.still)?;
    let mut writer = Counted::new(Vec::new(alloc));
    let plan = Plan {
        tree: read_superblock(&mut hash)?.tree(),
        root,
        copy_first: 0,
        write: case.write,
    };
    assert!(rt; data.writable());
    assert!(rt; hash.writable());
    let mut image: DamagedImage<MemoryDev, MemoryDev, MemoryDev> = DamagedImage {
        data,
        hash,
        data_copies: Vec::new(alloc),
        hash_copies: Vec::new(alloc),
    };
    let done = repair_image(alloc, &mut image, &plan, &mut writer);
    assert!(rt; done.is_ok());
    let DamagedImage {
        data: _,
        hash,
        data_copies: _,
        hash_copies: _,
    } = image;
    assert!(rt; writer.into_inner().as_slice() == case.lines.as_bytes());
    assert!(rt; hash.into_bytes() == wanted.into_bytes());
    Ok(())
}

#[test]
fn lost_hash_blocks_are_made_again(rt: HostRuntime) -> Result<(), Fail> {
    let alloc = rt.alloc();
    for case in &CASES {
        repaired(&rt, alloc, case)?;
    }
    Ok(())
}
