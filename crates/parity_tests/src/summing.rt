//! A lost block as the exclusive-or of the round's other blocks and veritysetup's parity.
use crate::losing::block_of;
use crate::parity::{CASES, Protected, protect};
use reed_solomon::{Products, add_parity};
use std::alloc::Global;
use std::process::Abort;
use std::test::Fail;

// Blocks of case 1, which has 322 covered blocks, those of the tree from 300 on, and two rounds.
static LOST: [u64; 5] = [0, 7, 299, 300, 321];

fn add_block<R: Abort>(rt: &R, one: &Products, block: &[u8], sums: &mut [u8]) {
    assert!(rt; block.len() == sums.len());
    one.add_to(sums, block);
}

fn add_stored<R: Abort>(rt: &R, stored: &[u8], sums: &mut [u8]) {
    assert!(rt; sums.len() <= 4096);
    assert!(rt; stored.len() == sums.len() * 8);
    add_parity(stored, 8, sums);
}

/// Sums the other blocks of the round of a block, and the round's parity.
fn sums_up<R: Abort>(rt: &R, alloc: Global, lost: u64) -> Result<(), Fail> {
    let case = CASES.get(1).ok_or("no case")?;
    let Protected {
        data,
        hash,
        parity,
        layout,
        root: _,
    } = protect(rt, alloc, case)?;
    let data_bytes = data.into_bytes();
    let hash_bytes = hash.into_bytes();
    let parity_bytes = parity.into_bytes();
    let one = Products::by(1);
    let mut sums = vec![in alloc; 0u8; 512]?;
    for index in 0..layout.covered_blocks() {
        if index % 2 == lost % 2 && index != lost {
            let block = block_of(alloc, &layout, index, &data_bytes, &hash_bytes)?;
            add_block(rt, &one, &block, &mut sums);
        }
    }
    let first = (lost % 2) as usize * 4096;
    let stored = parity_bytes.get(first..first + 4096).ok_or("no parity")?;
    add_stored(rt, stored, &mut sums);
    let block = block_of(alloc, &layout, lost, &data_bytes, &hash_bytes)?;
    assert!(rt; sums.as_slice() == block.as_slice());
    Ok(())
}

#[test]
fn one_lost_block_is_a_sum(rt: HostRuntime) -> Result<(), Fail> {
    let alloc = rt.alloc();
    for lost in &LOST {
        sums_up(&rt, alloc, *lost)?;
    }
    Ok(())
}
