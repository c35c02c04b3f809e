//! A `verity` line over a device that returns another block at each read.
use crate::stacks::{read, stack_of};
use block_device::{MemoryDev, ScriptDev};
use stack_engine::{Answer, Fault, IoFault, Stack};
use std::alloc::Global;
use std::test::Fail;
use tree_shape::{Algorithm, Salt};

/// Two blocks of zeros, without a salt; the root hash is Python's hashlib's.
const TWO: &[u8] =
    b"v,,,ro,0 2 verity 1 A B 512 512 2 1 sha256 182a1c8ba54d084e24f1018f709256fd40fa272278e35622dfef43d6ec1b1a9b -";

/// Whether the answer is a sector of zeros with one chain, of block 0 of device 0's line 0.
fn is_good(answer: &Option<Result<Answer, IoFault>>) -> bool {
    let Some(Ok(answer)) = answer else {
        return false;
    };
    let [found] = answer.chains.as_slice() else {
        return false;
    };
    let is_of_block_0 = (found.device, found.line, found.chain.index) == (0, 0, 0);
    is_of_block_0 && answer.bytes.as_slice() == [0u8; 512].as_slice()
}

fn is_mismatch(answer: &Option<Result<Answer, IoFault>>) -> bool {
    match answer {
        Some(Err(fault)) => *fault == IoFault::Stack(Fault::Mismatch),
        _ => false,
    }
}

/// A device whose first read returns the tree's block, and later reads a block with another byte.
fn hash_dev(alloc: Global) -> Result<ScriptDev, Fail> {
    let zeros = Salt::new(Algorithm::Sha256, b"")
        .ok_or("no salt")?
        .digest(&[0; 512]);
    let mut tree = Vec::from_slice(alloc, zeros.as_bytes())?;
    tree.extend_from_slice(zeros.as_bytes())?;
    let mut other = tree.clone()?;
    other.truncate(63);
    let mut blocks = Vec::new(alloc);
    blocks.push(tree)?;
    blocks.push(other)?;
    Ok(ScriptDev::new(2, blocks))
}

/// The second read of the sector succeeds with a cache, and fails without one, because the device returns another block then.
/// Both transfer one more sector.
#[test]
fn answers_the_block_that_it_checked(rt: HostRuntime) -> Result<(), Fail> {
    let alloc = rt.alloc();
    for capacity in [0, 4] {
        let data = ScriptDev::new(2, Vec::new(alloc));
        let mut stack = stack_of(alloc, data, hash_dev(alloc)?, TWO, capacity)?;
        assert!(rt; is_good(&read(&mut stack, b"v", 0, 1)) && stack.moved() == (2, 0));
        let answer = read(&mut stack, b"v", 0, 1);
        let again = is_good(&answer);
        assert!(rt; again == (capacity > 0) && again != is_mismatch(&answer));
        assert!(rt; stack.moved() == (3, 0));
    }
    Ok(())
}

/// Two blocks of two sectors of zeros, without a salt; the root hash is Python's hashlib's.
const LONG: &[u8] =
    b"v,,,ro,0 4 verity 1 A B 1024 512 2 1 sha256 fb5fa990488b2140be48f77b191e65ce2f14b46fc42135ff3597c98a43f43ee4 -";

/// Returns the tree of these blocks, after one sector.
fn long_tree(alloc: Global) -> Result<Vec<u8>, Fail> {
    let zeros = Salt::new(Algorithm::Sha256, b"")
        .ok_or("no salt")?
        .digest(&[0; 1024]);
    let mut bytes = vec![in alloc; 0u8; 512]?;
    bytes.extend_from_slice(zeros.as_bytes())?;
    bytes.extend_from_slice(zeros.as_bytes())?;
    bytes.resize(1024, 0)?;
    Ok(bytes)
}

/// Reads sectors that hold zeros, and returns how many sectors were read from the backing devices so far.
fn moved_after(
    stack: &mut Stack<MemoryDev>,
    first: u64,
    n: u32,
    zeros: &[u8],
) -> Result<u64, Fail> {
    match read(stack, b"v", first, n) {
        Some(Ok(answer)) if answer.bytes.as_slice() == zeros => Ok(stack.moved().0),
        _ => Err(Fail::from("other bytes")),
    }
}

/// Reads the first sector of a block, its second one, both, and the second one again. Returns how many sectors were read from the
/// backing devices until the end of each read.
fn moved_by_parts(alloc: Global, capacity: u32, keeps: bool) -> Result<[u64; 4], Fail> {
    let data = MemoryDev::new(vec![in alloc; 0u8; 2048]?, false);
    let tree = MemoryDev::new(long_tree(alloc)?, false);
    let mut stack = stack_of(alloc, data, tree, LONG, capacity)?;
    if keeps {
        stack.keep_data();
    }
    let first = moved_after(&mut stack, 0, 1, &[0; 512])?;
    let second = moved_after(&mut stack, 1, 1, &[0; 512])?;
    let both = moved_after(&mut stack, 0, 2, &[0; 1024])?;
    let again = moved_after(&mut stack, 1, 1, &[0; 512])?;
    Ok([first, second, both, again])
}

/// If that was asked for, and with a cache, a part of the data block that was read last is returned without a call. All of the
/// block is read each time.
#[test]
fn reads_the_parts_of_a_block_once(rt: HostRuntime) -> Result<(), Fail> {
    assert!(rt; moved_by_parts(rt.alloc(), 0, true)? == [3, 6, 9, 12]);
    assert!(rt; moved_by_parts(rt.alloc(), 4, false)? == [3, 5, 7, 9]);
    assert!(rt; moved_by_parts(rt.alloc(), 4, true)? == [3, 3, 5, 5]);
    Ok(())
}
