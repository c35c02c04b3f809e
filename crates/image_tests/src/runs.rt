//! Runs of data blocks of a `verity` line: how often a read calls each backing device, and which fault ends it.
use crate::stacks::{read, stack_of};
use block_device::{FailAt, MemoryDev};
use hash_tree::area;
use stack_engine::{Fault, IoFault};
use std::alloc::{AllocError, Global};
use std::test::Fail;
use tree_shape::{Algorithm, Digest, Salt, Shape};

/// The number of data blocks, each of one sector. The tree has one block at the top and two below.
const BLOCKS: usize = 32;

const SECTOR: usize = 512;

/// The block that has ones if the others have zeros, and zeros if they have ones.
const ODD: usize = 9;

/// A text over backing device `A` with the data and `B` with the tree after one sector; its root hash is hashlib's.
struct Run {
    text: &'static [u8],
    /// The byte of all other blocks.
    usual: u8,
    /// The sector of `A` that holds the odd block.
    place: usize,
    /// How often a read of all blocks calls `A`, and how many sectors it reads from both backing devices. If blocks may be
    /// ignored, a run ends with its hash block.
    calls: u64,
    sectors: u64,
}

static RUNS: [Run; 4] = [
    Run {
        text: b"v,,,ro,0 32 verity 1 A B 512 512 32 1 sha256 7767bd012c328cea640ad24597187fdc1e0c9663a4f16349099fbaa461c9b5f0 -",
        usual: 0,
        place: ODD,
        calls: 1,
        sectors: 35,
    },
    Run {
        text: b"s,,,ro,0 32 striped 2 8 A 0 A 16;v,,,ro,0 32 verity 1 /dev/mapper/s B 512 512 32 1 sha256 7767bd012c328cea640ad24597187fdc1e0c9663a4f16349099fbaa461c9b5f0 -",
        usual: 0,
        place: 17,
        calls: 4,
        sectors: 35,
    },
    Run {
        text: b"v,,,ro,0 32 verity 1 A B 512 512 32 1 sha256 7767bd012c328cea640ad24597187fdc1e0c9663a4f16349099fbaa461c9b5f0 - 1 ignore_zero_blocks",
        usual: 0,
        place: ODD,
        calls: 1,
        sectors: 4,
    },
    Run {
        text: b"v,,,ro,0 32 verity 1 A B 512 512 32 1 sha256 09834bacd04baa1f29089092d54901a28832b7de85af508335957be9a2148b64 - 1 ignore_zero_blocks",
        usual: 1,
        place: ODD,
        calls: 3,
        sectors: 34,
    },
];

fn fill(bytes: &mut [u8], sector: usize, byte: u8) {
    if let Some(block) = bytes.chunks_exact_mut(SECTOR).nth(sector) {
        block.fill(byte);
    }
}

/// Returns the data, with the sector `changed` modified if there is one.
fn data_of(alloc: Global, run: &Run, changed: usize) -> Result<Vec<u8>, AllocError> {
    let mut bytes = vec![in alloc; run.usual; BLOCKS * SECTOR]?;
    fill(bytes.as_mut_slice(), run.place, run.usual ^ 1);
    fill(bytes.as_mut_slice(), changed, 2);
    Ok(bytes)
}

/// Returns the tree of the unmodified data, after one sector.
fn tree_of(alloc: Global, run: &Run) -> Result<Vec<u8>, Fail> {
    let salt = Salt::new(Algorithm::Sha256, b"").ok_or("no salt")?;
    let shape = Shape::new(512, 512, BLOCKS as u64, 1)?;
    let mut digests: Vec<Digest> = Vec::new(alloc);
    for i in 0..BLOCKS {
        let byte = if i == ODD { run.usual ^ 1 } else { run.usual };
        digests.push(salt.digest(&[byte; SECTOR]))?;
    }
    if digests.len() as u64 != shape.blocks() {
        return Err(Fail::from("another number of blocks"));
    }
    let (tree, _) = area(alloc, &shape, &salt, digests.as_slice())?;
    let mut bytes = vec![in alloc; 0u8; SECTOR]?;
    bytes.extend_from_slice(tree.as_slice())?;
    Ok(bytes)
}

/// Returns how a read of all blocks ends, and how many sectors it has read, with the sector `changed` of the data modified if
/// there is one, and `A` and `B` failing at call `a` and call `b`, counted from 1.
fn ended(
    alloc: Global,
    run: &Run,
    changed: usize,
    (a, b): (u64, u64),
) -> Result<(Option<IoFault>, u64), Fail> {
    let data = MemoryDev::new(data_of(alloc, run, changed)?, false);
    let tree = MemoryDev::new(tree_of(alloc, run)?, false);
    let mut stack = stack_of(
        alloc,
        FailAt::new(data, a),
        FailAt::new(tree, b),
        run.text,
        0,
    )?;
    let fault = read(&mut stack, b"v", 0, 32).ok_or("outside")?.err();
    Ok((fault, stack.moved().0))
}

#[test]
fn a_read_of_a_run_calls_each_leaf_as_often_as_it_must(rt: HostRuntime) -> Result<(), Fail> {
    let alloc = rt.alloc();
    for run in &RUNS {
        for call in 1..=run.calls {
            let (fault, _) = ended(alloc, run, BLOCKS, (call, 0))?;
            assert!(rt; fault == Some(IoFault::Device(1)), "call {call} of A");
        }
        for call in 1..=3 {
            let (fault, _) = ended(alloc, run, BLOCKS, (0, call))?;
            assert!(rt; fault == Some(IoFault::Device(2)), "call {call} of B");
        }
        let end = ended(alloc, run, BLOCKS, (run.calls + 1, 4))?;
        assert!(rt; end == (None, run.sectors));
    }
    Ok(())
}

/// Whichever block differs, nothing after its run is read, and nothing is read twice.
#[test]
fn a_run_ends_at_its_first_block_that_differs(rt: HostRuntime) -> Result<(), Fail> {
    let alloc = rt.alloc();
    let mismatch = Some(IoFault::Stack(Fault::Mismatch));
    for run in &RUNS[..2] {
        for changed in 0..BLOCKS {
            let (fault, sectors) = ended(alloc, run, changed, (0, 0))?;
            assert!(rt;
                fault == mismatch && sectors <= run.sectors,
                "sector {changed}"
            );
        }
    }
    Ok(())
}
