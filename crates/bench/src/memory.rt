//! Calls that no command makes. Each is repeated if it runs out of memory; `scripts/gate/refuse_memory.py` refuses their
//! allocations.
ghost use Rattle.std.specs.Prelude.{◌≡◌};

use anyhow::{Context, Result, bail};
use block_device::{BlockDev, MemoryDev};
use dm_table::{ParseFault, StackText, Table};
use hash_tree::{Chain, area};
use std::alloc::{AllocError, Global};
use table_text::parse_table;
use tree_shape::{Algorithm, Digest, Salt, Shape};
use verity_format::{ChainFault, data_sectors, read_chain, tree_sectors};

const TABLE: &[u8] = b"0 8 striped 2 4 A 0 B 0\n8 8 linear C 2\n16 1 error\n";

/// By hashlib, with the salt `salt` and blocks of 512 bytes.
const ROOT: [u8; 32] = [
    0x2b, 0x39, 0xdc, 0x60, 0x24, 0xa8, 0x44, 0x40, 0x6b, 0xc0, 0x6b, 0x88, 0xc2, 0x8e, 0x36, 0xb4,
    0xbc, 0x4c, 0xcd, 0xee, 0x33, 0x02, 0x82, 0x11, 0x79, 0xcf, 0xfc, 0xd1, 0x90, 0x65, 0xec, 0x31,
];

/// Prints a line for each call that ran out of memory, and a line for each call once it returned the expected result.
pub fn show<R: Print + AllocGlobal>(rt: &R) -> Result<()> {
    let table = table_of(rt)?;
    if table.lines().len() != 3 {
        bail!("another table");
    }
    println!(rt; "parse_table: the table")?;
    if stack_of(rt, table)?.entries() != 1 {
        bail!("another stack");
    }
    println!(rt; "StackText::single: the stack")?;
    let shape = Shape::new(512, 512, 17, 1)?;
    let (blocks, root) = area_of(rt, &shape)?;
    if blocks.len() != 3 * 512 || root.as_bytes() != ROOT.as_slice() {
        bail!("another area");
    }
    println!(rt; "area: the area")?;
    let chain = chain_of(rt, &shape)?;
    let [top, below] = chain.path.as_slice() else {
        bail!("another path");
    };
    if top.as_slice() != [1u8; 512].as_slice()
        || below.as_slice() != [2u8; 512].as_slice()
        || chain.content.as_slice() != [3u8; 512].as_slice()
    {
        bail!("another chain");
    }
    Ok(println!(rt; "read_chain: the chain")?)
}

fn table_of<R: Print + AllocGlobal>(rt: &R) -> Result<Table> {
    match parse_table(rt.alloc(), TABLE) {
        Ok(table) => Ok(table),
        Err(ParseFault::NoMemory) => {
            println!(rt; "parse_table: no memory")?;
            Ok(parse_table(rt.alloc(), TABLE)?)
        }
        Err(fault) => Err(fault.into()),
    }
}

fn stack_of<R: Print + AllocGlobal>(rt: &R, table: Table) -> Result<StackText> {
    let alloc = rt.alloc();
    let copy = table.try_clone(alloc).map_err(AllocError::from)?;
    match StackText::single(alloc, b"a", true, copy) {
        Ok(stack) => Ok(stack),
        Err(ParseFault::NoMemory) => {
            println!(rt; "StackText::single: no memory")?;
            Ok(StackText::single(alloc, b"a", true, table)?)
        }
        Err(fault) => Err(fault.into()),
    }
}

fn area_of<R: Print + AllocGlobal>(rt: &R, shape: &Shape) -> Result<(Vec<u8>, Digest)> {
    let salt = Salt::new(Algorithm::Sha256, b"salt").context("the salt was refused")?;
    if shape.blocks() != 17 {
        bail!("another shape");
    }
    let digests = [Digest::new([0x5a; 32]); 17];
    match area(rt.alloc(), shape, &salt, &digests) {
        Ok(made) => Ok(made),
        Err(_) => {
            println!(rt; "area: no memory")?;
            Ok(area(rt.alloc(), shape, &salt, &digests).map_err(AllocError::from)?)
        }
    }
}

// The chain of block 3, on devices whose k-th sector is filled with the byte k.
fn chain_of<R: Print + AllocGlobal>(rt: &R, shape: &Shape) -> Result<Chain> {
    let alloc = rt.alloc();
    let mut data_dev = MemoryDev::ramp(alloc, 17, false).map_err(AllocError::from)?;
    let mut hash_dev = MemoryDev::ramp(alloc, 4, false).map_err(AllocError::from)?;
    match read_block(alloc, &mut data_dev, &mut hash_dev, shape)? {
        Ok(chain) => Ok(chain),
        Err(ChainFault::NoMemory) => {
            println!(rt; "read_chain: no memory")?;
            Ok(read_block(alloc, &mut data_dev, &mut hash_dev, shape)??)
        }
        Err(fault) => Err(fault.into()),
    }
}

fn read_block(
    alloc: Global,
    data_dev: &mut MemoryDev,
    hash_dev: &mut MemoryDev,
    shape: &Shape,
) -> Result<Result<Chain, ChainFault>> {
    if data_sectors(shape) > data_dev.sectors()
        || tree_sectors(shape) > hash_dev.sectors()
        || shape.blocks() <= 3
    {
        bail!("the devices are too small");
    }
    Ok(read_chain(alloc, data_dev, hash_dev, shape, 3))
}
